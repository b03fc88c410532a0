//! Scripts: how their bytes are cut into lines, and what a line says.
//!
//! `specs/` holds the grammar: how each line is spelled, and which lines a script has.
#![tactic(auto)]

mod grammar;
mod number;
mod raw;

pub use grammar::{Act2, Form, Line, read_line};
pub use raw::line_text;
