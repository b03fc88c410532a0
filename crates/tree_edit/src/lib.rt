//! Calls on pages as edits of trees: a node read, stored, made, settled in a page or in several, roots raised and lowered, neighbours
//! joined or divided anew, pages given up.
//!
//! Each call says by lists which pages it read, put, made and gave up (`EditsPages`), and what the pages show then. Nothing above this crate speaks of
//! the calls of [`EditPages`](page_face::EditPages).
#![tactic(auto)]

mod dividing;
mod give;
mod joining;
mod lay;
mod rooting;
mod settling;

pub use dividing::divide_pages;
pub use give::give_pages;
pub use joining::{join_left, join_pages};
pub use lay::{fetch_node, make_page, store};
pub use rooting::{lower_root, raise_root};
pub use settling::settle;
