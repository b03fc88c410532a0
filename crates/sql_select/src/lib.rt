//! SELECT behind its first word, and the lists, the conditions and the end that other statements have too, read by the grammar.
#![tactic(auto)]

mod end;
mod lists;
mod query;

pub use end::ended;
pub use lists::{filter, names, rows, sets};
pub use query::select;
