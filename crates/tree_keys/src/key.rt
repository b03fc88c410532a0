// Keys of rows and entries.
ghost use Rattle.std.specs.Prelude.{◌≡◌};
ghost use Rattle.tree_keys.specs.Keys.{sought_by, is_row, rowid_of};

use value_form::Row;

/// What is put into a tree or taken out, by its key.
#[derive(Clone, Copy)]
pub enum Key<'a> {
    /// A row of a table with this rowid.
    Rowid(i64),
    /// An entry of an index.
    Entry(&'a Row),
}

impl Key<'_> {
    /// Whether it goes into a table's tree.
    pub fn is_rowid(self) -> bool
        ensures { result ≡ is_row (sought_by self.entry) }
    {
        match self {
            Key::Rowid(_) => true,
            Key::Entry(_) => false,
        }
    }

    /// The rowid of a row.
    pub fn rowid(self) -> Option<i64>
        ensures { result ≡ rowid_of (sought_by self.entry) }
    {
        match self {
            Key::Rowid(rowid) => Some(rowid),
            Key::Entry(_) => None,
        }
    }
}
