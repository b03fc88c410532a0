//! Values and rows: what SQL computes with, how a row stands in a file as a record, and the order of values.
//!
//! A record, as SQLite's page "Database File Format" lays it out under "Record Format":
//!
//! | bytes | what |
//! |---|---|
//! | varint | the size of the header in bytes, these bytes included |
//! | a varint for each value | the value's serial type |
//! | as many as the types say | the bytes of each value, one after another |
//!
//! | serial type | bytes | value |
//! |---|---|---|
//! | 0 | 0 | NULL |
//! | 1, 2, 3, 4, 5, 6 | 1, 2, 3, 4, 6, 8 | integer in two's complement, the highest byte first |
//! | 7 | 8 | float, which is refused by name |
//! | 8, 9 | 0 | the integers 0 and 1, which are read and never written |
//! | 10, 11 | | not allowed |
//! | N from 12, even | (N-12)/2 | blob |
//! | N from 13, odd | (N-13)/2 | text, of any bytes |
#![tactic(auto)]

mod compare;
mod fault;
mod read;
mod serial;
mod value;
mod write;

pub use compare::{order, order_rows};
pub use fault::RecordFault;
pub use read::read_record;
pub use value::{Row, Value};
pub use write::write_record;
