// Columns, and what a CREATE text says of a table.
use disk_face::Txt;
use sqlite_items::Items;

/// What a column's type makes of its values.
#[derive(Clone, Copy, Debug, PartialEq, Eq)]
pub enum Affinity {
    Integer,
    Text,
    Blob,
}

/// A column of a table.
#[derive(Drop)]
pub struct Column {
    pub name: Txt,
    pub affinity: Affinity,
    pub not_null: bool,
    /// Whether it is INTEGER PRIMARY KEY, and so the rowid.
    pub is_rowid: bool,
}

/// What statements may do with a table of a file.
#[derive(Clone, Copy, Debug, PartialEq, Eq)]
pub enum Use {
    /// It may be read and changed.
    Usable,
    /// It may be read alone.
    ReadOnly,
    /// No statement may name it.
    Unusable,
}

/// What may be said of a column behind its type.
#[derive(Clone, Copy, Debug, PartialEq, Eq)]
pub enum Constraint {
    /// PRIMARY KEY
    Key,
    /// NOT NULL
    NotNull,
    /// UNIQUE
    Unique,
}

/// A type as it is written.
#[derive(Clone, Copy, Debug, PartialEq, Eq)]
pub struct Typed {
    /// None where the type has none of the three.
    pub affinity: Option<Affinity>,
    /// Whether it is the one word INTEGER.
    pub integer: bool,
}

/// What has been read of a column.
#[derive(Drop)]
pub struct Draft {
    pub column: Column,
    pub typed: Typed,
    /// Whether PRIMARY KEY stands on it.
    pub keyed: bool,
    /// Whether UNIQUE stands on it.
    pub unique: bool,
    /// Whether it has something that a file's table may have and that no statement creates.
    pub wider: bool,
}

/// What has been read of a table's columns.
#[derive(Drop)]
pub struct Declared {
    pub columns: Items<Column>,
    /// Whether PRIMARY KEY stands on one of them.
    pub keyed: bool,
    pub state: Use,
}

/// What stands behind CREATE TABLE.
#[derive(Drop)]
pub struct TableText {
    pub name: Txt,
    pub declared: Declared,
}

/// What stands behind CREATE INDEX.
#[derive(Drop)]
pub struct IndexText {
    pub name: Txt,
    pub table: Txt,
    pub columns: Items<Txt>,
}
