//! What stands behind CREATE TABLE and CREATE INDEX, in a statement and in the text of a file's object, read by the grammar.
#![tactic(auto)]

mod columns;
mod indexes;
mod types;

pub use columns::table;
pub use indexes::index;
