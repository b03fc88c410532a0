//! The lexemes of a text of SQL: its tokens, each with what it stands for, and the places where they begin.
#![tactic(auto)]

mod join;
mod lexeme;
mod values;
mod words;

pub use join::{Lexemes, lexemes_of};
pub use lexeme::{Function, Lexeme, Symbol, Word};
