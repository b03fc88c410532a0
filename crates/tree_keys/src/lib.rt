//! Keys of rows and entries, by which trees are edited: where a key stands among the cells of a page, and what stands when a tree is edited.
#![tactic(auto)]

mod key;
mod place;

pub use key::Key;
pub use place::place_in;
