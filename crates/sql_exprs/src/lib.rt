//! Lexemes and expressions, read by the grammar with one lexeme of lookahead.
//!
//! A function takes the lexemes that are left and answers what it read with the lexemes behind it, or the lexemes from the
//! first wrong one on: what reading by the rule of the grammar gives.
#![tactic(auto)]

mod expr;
mod lexeme;

pub use expr::{MAX_DEPTH, expression, value};
pub use lexeme::{
    ParseError, after, after_if, after_word, after_word_if, alias, begins_with, column_name, count,
    expect, expect_count, expect_name, expect_new_name, expect_word, name,
};
