//! The database header: the first 100 bytes of page 1, read with each refusal in its order, and written.
//!
//! The form is that of SQLite's page "Database File Format" under "The Database Header". The limit on a file's bytes, the
//! version pair 3, 3 for two logs, and the order of the refusals are this project's own.
#![tactic(auto)]

mod fault;
mod header;
mod read;
mod write;

pub use fault::HeaderFault;
pub use header::Header;
pub use read::read_header;
pub use write::write_header;
