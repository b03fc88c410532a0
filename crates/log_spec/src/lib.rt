//! Definitions of what a log's bytes are: its checksum, its header, its frames, and the frames that are accepted.
//!
//! The crate has no code. `specs/` holds the definitions that the contracts of other crates cite, and `proofs/` small laws about
//! them. The form is that of SQLite's page "Database File Format" under "The Write-Ahead Log", with a version number, a
//! generation and rules on them that are this project's own.
#![tactic(auto)]
