// Where a page stands in a tree.

/// Where a page stands in a tree.
#[derive(Clone, Copy)]
pub struct Spot {
    /// Whether the tree is page 1's.
    pub schema: bool,
    /// Whether it is a table's, where that is known. It isn't of a root.
    pub table: Option<bool>,
    /// How many levels below the root the page stands.
    pub level: u32,
    /// The rowid above which those of the page are, if there is one.
    pub before: Option<i64>,
    /// The greatest rowid that may stand there, if there is a bound.
    pub bound: Option<i64>,
}
