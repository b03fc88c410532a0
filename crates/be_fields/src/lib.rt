//! Numbers in bytes: big-endian fields of two and four bytes, and varints.
//!
//! Both are forms of SQLite's page "Database File Format": all multibyte fields of a database are big-endian, and cells
//! and records begin with varints.
#![tactic(auto)]

mod fields;
mod varint;

pub use fields::{get_u16, get_u32, put_u16, put_u32};
pub use varint::{get_varint, put_varint};
