// Where a freelist begins.

/// A freelist: the number of its first trunk, 0 where it has none, and how many pages it has, trunks and leaves together.
#[derive(Clone, Copy, Debug, PartialEq, Eq)]
pub struct Free {
    /// The number of the first trunk, 0 for none.
    pub trunk: u32,
    /// How many pages the list has.
    pub count: u32,
}
