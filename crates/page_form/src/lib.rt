//! B-tree pages read: whether bytes are the text of a page, what it holds, and each of its cells.
//!
//! The form is that of SQLite's page "Database File Format" under "B-tree Pages". The order of the checks is this project's
//! own. A page shows a node (crate `node_spec`): above this crate nothing speaks of offsets in a page but to name a fault.
#![tactic(auto)]

mod cells;
mod content;
mod front;
mod kinds;
mod page;
mod read;
mod sizes;

pub use cells::{Cell, cell_len, read_cell};
pub use front::content_start;
pub use kinds::{flag_of, header_at, header_size, is_leaf, is_table, kind_of, pointers_at};
pub use node_spec::Kind;
pub use page::{Page, PageFault};
pub use read::read_page;
pub use sizes::{local_size, spills};
