//! Overflow chains: the end of a payload that is too large for its cell, page by page.
//!
//! | bytes of a page | what |
//! |---|---|
//! | 0 to 3 | the number of the next page, 0 in the last one |
//! | 4 to the end of the usable bytes | content |
//!
//! The form is that of SQLite's page "Database File Format" under "Cell Payload Overflow Pages". How many bytes a chain has stands
//! in the cell that it belongs to, so a chain is followed as far as they need, and what its last page names isn't looked at.
#![tactic(auto)]

mod free;
mod read;
mod write;

pub use free::{free_chain, free_chain_with};
pub use read::{read_chain, read_chain_with};
pub use write::{write_chain, write_chain_with};
