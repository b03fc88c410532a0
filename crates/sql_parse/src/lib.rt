//! Statements and the CREATE texts of a file, read from text: the statement that it is, or the exact place where it goes wrong.
#![tactic(auto)]

mod change;
mod created;
mod statement;
mod text;

pub use engine_spec::Mode;
pub use sql_grammar::{
    Affinity, Column, Created, Expr, Exprs, Function, Named, Op, Select, Set, Sort, Statement, Use,
};
pub use text::{ParseFault, parse, parse_create};
