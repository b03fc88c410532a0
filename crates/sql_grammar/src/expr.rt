// Expressions as trees. Brackets leave no node, and a minus directly before 2^63 is read with it.
ghost use Rattle.std.specs.Prelude.{◌≡◌, [], ◌∷◌, ◌++◌, OnOk, OnErr};

use disk_face::{Bytes, Txt};
use sql_lexemes::Function;
use sqlite_items::{Boxed, Items};
use std::alloc::{AllocError, Global};
use std::marker::Model;

/// An operator.
#[derive(Clone, Copy, Debug, PartialEq, Eq)]
pub enum Op {
    Or,
    And,
    Not,
    Equal,
    Unequal,
    IsNull,
    IsNotNull,
    Less,
    AtMost,
    More,
    AtLeast,
    Add,
    Sub,
    Mul,
    Div,
    Rem,
    /// A minus before its operand.
    Minus,
    /// A plus before its operand.
    Plus,
}

/// An expression.
#[derive(Drop)]
pub enum Expr {
    Null,
    Int(i64),
    Text(Txt),
    Blob(Bytes),
    Column { table: Option<Txt>, name: Txt },
    One(Op, Boxed<Expr>),
    Two(Op, Boxed<Expr>, Boxed<Expr>),
    /// COUNT(*)
    CountAll,
    Aggregate(Function, Boxed<Expr>),
}

/// A list of expressions, which contracts see as a list.
#[derive(Drop)]
pub struct Exprs {
    items: Items<Expr>,
}

impl Model for Exprs {
    ghost use Rattle.std.specs.Prelude.{List};
    ghost use Rattle.std.specs.Coded.{codes, coded_list};
    ghost use Rattle.sql_grammar.specs.declared.expr.Expr.{Expr};
    ghost use Rattle.sql_grammar.specs.contracts.expr.Expr as e;

    ghost Value = { List Expr };

    ghost coded = { coded_list (Prim.hlevel (codes, e.the_row.coded)) };

    ghost view = { λ exprs. exprs.items };
}

impl Exprs {
    /// No expressions. It takes no memory.
    pub fn new(alloc: Global) -> Exprs
        ensures { result ≡ [] }
    {
        Exprs {
            items: Items::new(alloc),
        }
    }

    /// Puts the expression at the end. A refused push leaves the list as it was.
    pub fn push(&mut self, expr: Expr) -> Result<(), AllocError>
        ensures pushed { OnOk result (self.new ≡ self.old ++ expr ∷ []) }
        ensures refused { OnErr result (self.new ≡ self.old) }
    {
        self.items.push(expr)
    }

    /// All the expressions.
    pub fn items(&self) -> &[Expr]
        ensures { result.now ≡ self.now }
    {
        self.items.as_slice()
    }
}

/// What stands behind an operand: an operator with two sides, or IS.
#[derive(Clone, Copy, Debug, PartialEq, Eq)]
pub enum Link {
    Is,
    Two(Op),
}

/// An expression and its depth. A term that holds no expression has depth 0, brackets, a sign, NOT, IS [NOT] NULL and an
/// aggregate are one deeper than what they hold, any other operator is one deeper than its deeper side.
#[derive(Drop)]
pub struct Deep {
    pub expr: Expr,
    pub depth: u32,
}

/// Where an expression stands, which decides what it may hold.
#[derive(Clone, Copy, Debug, PartialEq, Eq)]
pub enum Place {
    /// No aggregate may stand in it.
    Plain,
    /// In the list of SELECT: aggregates may stand in it.
    Listed,
    /// In ORDER BY: aggregates may stand in it, and it may not begin with an integer that stands alone.
    Sorted,
}
