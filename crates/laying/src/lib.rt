//! The pages that a commit writes, laid over a map that isn't copied: in which order they stand, and page 1, which every commit changes.
//!
//! A commit writes page 1 and the pages that its transaction changed, each once, in rising order. The images stay where the transaction has
//! them: the order is a list of their places. Page 1 is changed in place, in a buffer that has page 1 of the newest map. No page is made or freed.
#![tactic(auto)]

mod first;
mod order;

pub use first::lay_first;
pub use order::{order_of, written_pages};
