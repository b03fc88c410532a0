//! Page lines: the sessions that act on an engine's pages, over any engine.
#![tactic(auto)]

mod pagers;
mod playing;
mod seats;
mod transaction;
mod turns;

pub use page_lines::{Act, Raw, Told};
pub use pagers::Pagers;
pub use playing::play;
