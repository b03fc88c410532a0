//! A transaction's private cache over an engine's snapshot.
//!
//! [`Overlay`] keeps which pages of its snapshot a transaction read, and what it changed: pages with their bytes, new pages, and pages
//! that it gave up. [`Live`] gives the snapshot's pages with these over them: it is `Pages`.
#![tactic(auto)]

mod freed;
mod images;
mod live;
mod making;
mod overlay;
mod own;
mod run;
mod taking;

pub use live::Live;
pub use overlay::{Mark, Overlay};
