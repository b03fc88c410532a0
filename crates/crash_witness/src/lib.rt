//! A function over a disk whose contract says what a crash leaves at each moment of it: that the definitions of `crash_spec`, and
//! their laws with the premise on chance, serve a proof over real code. And a worked case of that premise.
//!
//! Nothing stands on this crate.
#![tactic(auto)]

mod append;
mod known;

pub use append::append_frame;
pub use known::outlasts;
