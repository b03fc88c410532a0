// The kinds of pages, of which each b-tree has a pair.

/// What a page of a b-tree holds. SQLite's page "Database File Format" lists the four under "B-tree Pages".
#[derive(Clone, Copy, Debug, PartialEq, Eq)]
pub enum Kind {
    /// An interior page of an index: entries, and pages below them. Its flag is 2.
    IndexInner,
    /// An interior page of a table: rowids that divide the pages below them. Its flag is 5.
    TableInner,
    /// A leaf of an index: entries. Its flag is 10.
    IndexLeaf,
    /// A leaf of a table: rows. Its flag is 13.
    TableLeaf,
}
