//! The text of a log: its checksum and its header.
//!
//! The form is that of SQLite's page "Database File Format" under "The Write-Ahead Log". The version number, and that the
//! checkpoint sequence number holds a generation, are this project's own.
#![tactic(auto)]

mod found;
mod header;
mod read;
mod scan;
mod sum;
mod write;

pub use found::{Accepted, ScanFault};
pub use header::{Front, LogHeader};
pub use read::read_log_header;
pub use scan::accepted;
pub use sum::{Sum, sum_step};
pub use write::write_log_header;
