// What pages tell. It has no calls, so that a record of specs/ can take all that they tell as one value.
ghost use Rattle.std.specs.Prelude.{ℕ, Bool, List};
ghost use Rattle.page_spec.specs.View.{View};

/// What pages of one size tell. It has no calls: [`Pages`](crate::Pages), [`PutPages`](crate::PutPages) and
/// [`EditPages`](crate::EditPages) have them.
pub trait PagesTells {
    /// A world that the caller may be reading, as far as it has read.
    ghost tells: { Self → View → Type 0 };

    /// What stands over a world.
    ghost over: { Self → View → View };

    /// The numbers of pages that aren't in use over a world, and that may be given out.
    ghost free: { Self → View → ℕ → Type 0 };

    /// The freelist over a world is in order.
    ghost neat: { Self → View → Type 0 };

    /// Over a world a page is given out before a new one is numbered.
    ghost spare: { Self → View → Type 0 };

    /// The pages may be read.
    ghost ready: { Self → Type 0 };

    /// The page size in bytes.
    ghost page_size: { Self → ℕ };

    /// How many bytes of a page are in use.
    ghost usable: { Self → ℕ };

    /// The number of the last page.
    ghost last_page: { Self → ℕ };

    /// Whether reading a page reads nothing of the world, as of one that was changed.
    ghost has: { Self → ℕ → Bool };

    /// The pages of the world that were read, in rising order.
    ghost reads: { Self → List ℕ };

    /// How often the disk behind the pages has failed.
    ghost faults: { Self → ℕ };

    /// The names of the references that the pages hold.
    ghost loans: { Self → List ℕ };

    /// What stands behind the second pages is what stood behind the first, as far as calls on pages leave it.
    ghost follows: { Self → Self → Type 0 };

    /// What stands behind pages is what stands behind them.
    ghost follows_itself: { (pages : Self) → follows pages pages };

    /// It stays over several calls.
    ghost follows_on: { (first second third : Self) → follows first second → follows second third → follows first third };
}
