// What a walk over a database keeps.
ghost use Rattle.std.specs.Prelude.{◌≡◌, ◌+◌, ◌/◌, ◌≤◌, length, OnOk, IfErr, MatchResult};
ghost use Rattle.page_spec.specs.View.{View};
ghost use Rattle.page_face.specs.Pages.{ReadsAtMost};
ghost use Rattle.check_spec.specs.declared.fault.CheckFault.TheVariants as fault;
ghost use Rattle.tree_check.specs.Met.{is_met};
ghost use Rattle.tree_check.specs.Walking.{HasMet, HasMetBefore, ComesFromOutside};

use crate::marks::Marks;
use check_spec::CheckFault;
use page_face::{FetchFault, Pages};

/// What a walk keeps: the sizes, the pages that it met, and the roots that schema rows named.
#[derive(Drop)]
pub(crate) struct Walk {
    /// How many bytes a page has.
    pub page_size: usize,
    /// How many of them are in use.
    pub usable: usize,
    /// The number of the last page.
    pub last: u32,
    /// The pages that were met.
    pub marks: Marks,
    /// How deep the first leaf of the tree stands that is being walked, once one was met.
    pub leaves: Option<u32>,
    /// The roots that were named, in the order of their rows.
    pub roots: Vec<u32>,
    /// The payload of the schema row that is being read.
    pub payload: Vec<u8>,
}

impl Walk {
    /// Meets a page, which is an error where it was met before.
    pub(crate) fn meet(&mut self, page: u32) -> Result<(), CheckFault>
        requires room { length self.old.marks.bits.items ≡ self.old.last / 8 + 1 }
        requires page { (1 ≤ page) × (page ≤ self.old.last) }
        ensures met { OnOk result (HasMet self.old page self.new) }
        ensures twice { IfErr result (HasMetBefore self.old page) }
    {
        if self.marks.has(page) {
            return Err(CheckFault::Twice { page });
        }
        self.marks.add(page);
        Ok(())
    }
}

// Reads a page into a buffer.
pub(crate) fn read<P: Pages>(pages: &mut P, page: u32, buf: &mut [u8]) -> Result<(), CheckFault>
    requires ready { P.ready pages.old }
    requires page { (1 ≤ page) × (page ≤ P.last_page pages.old) }
    requires room { length buf.old ≡ P.page_size pages.old }
    ensures bytes { OnOk result ((world : View) → P.tells pages.new world → buf.new ≡ P.over pages.old world page) }
    ensures cause { IfErr result (ComesFromOutside (P.faults pages.old) (P.faults pages.new)) }
    ensures reading { ReadsAtMost P.PagesTells pages.old pages.new }
    ensures room { length buf.new ≡ length buf.old }
{
    match pages.fetch(page, buf) {
        Ok(()) => Ok(()),
        Err(FetchFault::Disk) => Err(CheckFault::Disk),
        Err(FetchFault::Memory) => Err(CheckFault::Memory),
        Err(FetchFault::Corrupt { .. } | FetchFault::Size { .. }) => unreachable!(),
    }
}
