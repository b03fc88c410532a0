// Statements, and what the text of an object of a file says.
use crate::expr::{Expr, Exprs};
use crate::table::{Column, Use};
use disk_face::Txt;
use engine_spec::Mode;
use sqlite_items::Items;

/// A statement.
#[derive(Drop)]
pub enum Statement {
    Begin(Mode),
    Commit,
    Rollback,
    CreateTable {
        name: Txt,
        columns: Items<Column>,
    },
    CreateIndex {
        unique: bool,
        name: Txt,
        table: Txt,
        columns: Items<Txt>,
    },
    DropTable {
        name: Txt,
    },
    /// No columns stands for all columns of the table.
    Insert {
        table: Txt,
        columns: Items<Txt>,
        rows: Items<Exprs>,
    },
    Update {
        table: Txt,
        sets: Items<Set>,
        filter: Option<Expr>,
    },
    Delete {
        table: Txt,
        filter: Option<Expr>,
    },
    Select(Select),
}

/// A SELECT.
#[derive(Drop)]
pub struct Select {
    /// Whether `*` stands in the place of the list.
    pub all: bool,
    pub list: Exprs,
    pub from: Items<Named>,
    /// The conditions of all ON, in their order.
    pub on: Exprs,
    pub filter: Option<Expr>,
    pub groups: Exprs,
    pub orders: Items<Sort>,
    pub limit: Option<u64>,
    pub offset: Option<u64>,
}

/// `column = value` of an UPDATE.
#[derive(Drop)]
pub struct Set {
    pub column: Txt,
    pub value: Expr,
}

/// A value to sort by.
#[derive(Drop)]
pub struct Sort {
    pub value: Expr,
    /// Whether DESC stands behind it.
    pub falling: bool,
}

/// A table of FROM, and the name that it has in the statement.
#[derive(Drop)]
pub struct Named {
    pub table: Txt,
    pub name: Txt,
}

/// What the text of an object of a file says.
#[derive(Drop)]
pub enum Created {
    /// Without columns where the state is [`Use::Unusable`].
    Table {
        state: Use,
        columns: Items<Column>,
    },
    Index {
        unique: bool,
        table: Txt,
        columns: Items<Txt>,
    },
}

/// What stands before a further table of FROM.
#[derive(Clone, Copy, Debug, PartialEq, Eq)]
pub enum Joint {
    Comma,
    Join,
}

/// The tables of FROM, and the conditions of its ON.
#[derive(Drop)]
pub struct Sources {
    pub from: Items<Named>,
    pub on: Exprs,
}

/// What stands behind LIMIT and OFFSET.
#[derive(Clone, Copy, Debug, PartialEq, Eq)]
pub struct Limits {
    pub limit: Option<u64>,
    pub offset: Option<u64>,
}
