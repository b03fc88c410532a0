// A cursor over the items of a tree.
ghost use Rattle.std.specs.Prelude.{◌≡◌, ℕ, true, false, OnOk, IfOk, IfErr, OnErr};
ghost use Rattle.page_face.specs.Pages.{ReadsAtMost};
ghost use Rattle.tree_scan.specs.Coming.{IsNewCursor};
ghost use Rattle.tree_scan.specs.Reads.{HasReadAhead};
ghost use Rattle.tree_scan.specs.Walking.{IsReadNext, BeginsBy, WalksOn};
ghost use Rattle.tree_scan.specs.Scanning.{Fits, GivesNext, StaysThere, FailsNext, IsBarred, BreaksOn, BreaksNext, BreaksStart};

use crate::bounds::Bounds;
use crate::buffers::Buffers;
use crate::level::Level;
use crate::path::{first_path, go_down, go_up, step_on};
use crate::row::row_at;
use page_face::{FetchFault, Pages};
use std::alloc::{AllocError, Global};
use value_form::Row;

/// A place between the items of a tree: the rows of a table, or the entries of an index.
#[derive(Drop)]
pub struct Cursor {
    pub(crate) root: u32,
    pub(crate) bounds: Bounds,
    pub(crate) begun: bool,
    pub(crate) levels: Vec<Level>,
    pub(crate) spare: Buffers,
}

impl Cursor {
    /// A cursor before the rows of the table's tree at page `root` whose rowids are from `low` to `high`, both inclusive. It takes no memory.
    pub fn rows(alloc: Global, root: u32, low: Option<i64>, high: Option<i64>) -> Cursor
        ensures { IsNewCursor root (Bounds.Rows low high) result }
    {
        Cursor::new(alloc, root, Bounds::Rows { low, high })
    }

    /// A cursor before the entries of the index's tree at page `root` whose leading values, as many as a bound has, are from `low` to `high`, both
    /// inclusive. It takes no memory.
    pub fn entries(alloc: Global, root: u32, low: Option<Row>, high: Option<Row>) -> Cursor
        ensures { IsNewCursor root (Bounds.Entries low high) result }
    {
        Cursor::new(alloc, root, Bounds::Entries { low, high })
    }

    // A cursor before the items that are in the bounds.
    fn new(alloc: Global, root: u32, bounds: Bounds) -> Cursor
        ensures { IsNewCursor root bounds result }
    {
        Cursor {
            root,
            bounds,
            begun: false,
            levels: Vec::new(alloc),
            spare: Buffers::new(alloc),
        }
    }

    /// The next item, None exactly behind the last one in the bounds: of a table a row with its rowid, of an index an entry's row with its last
    /// value where that is an integer, which is a rowid, else with 0.
    ///
    /// Rows come by rising rowids. Entries come as they stand in the tree: with bounds they are to stand so that those under the low bound come
    /// first and those over the high one last, as they do in the order of [`order_rows`](value_form::order_rows).
    ///
    /// The pages are to be those of the last call, on which nothing was put since. After an error the same items are to come.
    ///
    /// `Corrupt` names the root where that is out of range or shows no node that may stand there; the page that names a child out of range;
    /// the child that shows no node that may stand there; the item's page where its payload is no record without a float, or has 2^32
    /// bytes or more; and the page of the payload's chain that names one out of range. In an index it may be so for each entry with which the low
    /// bound is compared. `Disk` and `Memory` come from outside.
    ///
    /// A call reads the pages of the path that it walks, down to where an item comes next, and those of the item's chain. So over all calls a tree's
    /// pages from that of the low bound's place to that of the first item over the high one are read, each once. In an index the chains of the entries
    /// with which the low bound is compared are read besides. What an error cut off is read again.
    pub fn next<P: Pages>(&mut self, pages: &mut P) -> Result<Option<(i64, Row)>, FetchFault>
        requires ready { P.ready pages.old }
        requires fits { Fits P.PagesTells pages.old self.old }
        ensures gives { IfOk result (λ found. GivesNext P.PagesTells pages.old self.old found self.new pages.new) }
        ensures stays { OnErr result (StaysThere P.PagesTells pages.old self.old self.new pages.new) }
        ensures barred { IfErr result (IsBarred P.PagesTells pages.old pages.new (λ shown. BreaksNext (P.usable pages.old) (P.last_page pages.old) shown self.new)) }
        ensures sound { IfErr result (λ why. FailsNext P.PagesTells pages.old self.old why pages.new) }
        ensures fits { Fits P.PagesTells pages.new self.new }
        ensures reads { HasReadAhead P.PagesTells pages.old (λ usable last shown list. IsReadNext usable last shown self.old list) self.old result self.new pages.new }
        ensures reading { ReadsAtMost P.PagesTells pages.old pages.new }
    {
        match self.begin(pages) {
            Ok(()) => (),
            Err(why) => return Err(why),
        }
        match self.go_on(pages) {
            Ok(found) => Ok(found),
            Err(why) => Err(why),
        }
    }

    // Goes to the first item, if that wasn't done yet.
    fn begin<P: Pages>(&mut self, pages: &mut P) -> Result<(), FetchFault>
        requires ready { P.ready pages.old }
        requires fits { Fits P.PagesTells pages.old self.old }
        ensures stays { StaysThere P.PagesTells pages.old self.old self.new pages.new }
        ensures begun { OnOk result (self.new.begun ≡ true) }
        ensures not_begun { OnErr result (self.new.begun ≡ false) }
        ensures same { (self.new.bounds ≡ self.old.bounds) × (self.new.root ≡ self.old.root) }
        ensures barred { IfErr result (IsBarred P.PagesTells pages.old pages.new
            (λ shown. BreaksStart (P.usable pages.old) (P.last_page pages.old) shown self.new.bounds self.new.root self.new.levels.items)) }
        ensures sound { IfErr result (λ why. FailsNext P.PagesTells pages.old self.old why pages.new) }
        ensures fits { Fits P.PagesTells pages.new self.new }
        ensures reads { HasReadAhead P.PagesTells pages.old (λ usable last shown list. BeginsBy usable last shown self.old result self.new list) self.old result self.new pages.new }
        ensures reading { ReadsAtMost P.PagesTells pages.old pages.new }
    {
        if self.begun {
            return Ok(());
        }
        let root = self.root;
        if root < 1 || root > pages.last() {
            return Err(FetchFault::Corrupt { page: root });
        }
        self.levels.clear();
        match first_path(pages, root, &mut self.levels, &mut self.spare, &self.bounds) {
            Ok(()) => (),
            Err(why) => return Err(why),
        }
        self.begun = true;
        Ok(())
    }

    // The next item, once the root was read.
    fn go_on<P: Pages>(&mut self, pages: &mut P) -> Result<Option<(i64, Row)>, FetchFault>
        requires ready { P.ready pages.old }
        requires fits { Fits P.PagesTells pages.old self.old }
        requires begun { self.old.begun ≡ true }
        ensures gives { IfOk result (λ found. GivesNext P.PagesTells pages.old self.old found self.new pages.new) }
        ensures stays { OnErr result (StaysThere P.PagesTells pages.old self.old self.new pages.new) }
        ensures begun { self.new.begun ≡ true }
        ensures barred { IfErr result (IsBarred P.PagesTells pages.old pages.new
            (λ shown. BreaksOn (P.usable pages.old) (P.last_page pages.old) shown self.new.bounds self.new.levels.items)) }
        ensures sound { IfErr result (λ why. FailsNext P.PagesTells pages.old self.old why pages.new) }
        ensures fits { Fits P.PagesTells pages.new self.new }
        ensures reads { HasReadAhead P.PagesTells pages.old
            (λ usable last shown list. WalksOn usable last shown self.old.bounds self.old.levels.items list) self.old result self.new pages.new }
        ensures reading { ReadsAtMost P.PagesTells pages.old pages.new }
    {
        go_up(&mut self.levels, &mut self.spare);
        match go_down(
            pages,
            &mut self.levels,
            &mut self.spare,
            &self.bounds,
            false,
        ) {
            Ok(()) => (),
            Err(why) => return Err(why),
        }
        match row_at(pages, &self.levels, &self.bounds, &mut self.spare) {
            Ok(None) => {
                self.levels.clear();
                Ok(None)
            }
            Ok(Some(row)) => {
                step_on(&mut self.levels);
                Ok(Some(row))
            }
            Err(why) => Err(why),
        }
    }
}
