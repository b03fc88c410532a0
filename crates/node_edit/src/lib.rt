//! Nodes edited in the bytes of their pages: cells put in together, a page divided, joined with a neighbour or divided anew with it,
//! begun anew or copied.
//!
//! Each call is said of the nodes that the pages show (crate `node_spec`), and of how a whole node is divided (crate `edit_spec`). Trees are edited by
//! these calls alone: nothing above this crate speaks of bytes in a page. Cells go from page to page as slices, so that nothing but the keys between
//! the parts of a divided page takes memory.
#![tactic(auto)]

mod again;
mod between;
mod copy;
mod crowd;
mod division;
mod down;
mod head;
mod join;
mod keys;
mod leaves;
mod payloads;
mod put;
mod run;

pub use again::divide_joined;
pub use between::key_at;
pub use copy::copy_node;
pub use division::{Divided, divide};
pub use down::cell_down;
pub use head::count_of;
pub use join::take_over;
pub use keys::cell_above;
pub use payloads::leaf_cell;
pub use put::{put_cells, start_inner};
