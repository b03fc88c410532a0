//! What the statements of SQL are: their types, and their grammar as data.
//!
//! `src/` holds the types. `specs/` holds the grammar, which contracts of `sql_parse` cite, and `proofs/` laws about it: one
//! token decides, what has begun can be ended, a list of lexemes has at most one statement.
#![tactic(auto)]

mod expr;
mod statement;
mod table;

pub use expr::{Deep, Expr, Exprs, Link, Op, Place};
pub use sql_lexemes::Function;
pub use statement::{Created, Joint, Limits, Named, Select, Set, Sort, Sources, Statement};
pub use table::{Affinity, Column, Constraint, Declared, Draft, IndexText, TableText, Typed, Use};
