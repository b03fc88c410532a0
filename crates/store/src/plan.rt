// What a commit takes before its first write: after it no memory is needed any more.
ghost use Rattle.std.specs.Prelude.{◌≡◌, ◌+◌, ◌≤◌, ◌<◌, ◌^◌, length, All, IfOk, OnOk};
ghost use Rattle.engine_spec.specs.PageSet.{AreDifferent};
ghost use Rattle.laying.specs.Order.{page_numbers};
ghost use Rattle.store.specs.Kept.{kept_of};
ghost use Rattle.store.specs.Planning.{IsPlanOf, HasPlanRoom};

use crate::store::Store;
use disk_face::{Disk, Salts};
use engine_spec::PageImage;
use laying::{order_of, written_pages};
use page_face::{Means, ReadSet};
use std::alloc::AllocError;

/// The order in which a commit writes its pages behind page 1, as places among the changed ones, and the numbers of all of them.
#[derive(Debug, Drop)]
pub struct Plan {
    pub order: Vec<u32>,
    pub wrote: ReadSet,
}

impl<D: Disk, W: Salts, M: Means> Store<D, W, M> {
    // Plans the commit of these changed pages, and makes room for it. The error is want of memory. What the store keeps stays in any case.
    pub(crate) fn plan(&mut self, changed: &[PageImage]) -> Result<Plan, AllocError>
        requires different { AreDifferent (page_numbers changed.now) }
        requires least { All (λ image. 1 ≤ image.page) changed.now }
        requires few { length changed.now < 2 ^ 32 }
        requires small { self.old.page_size ≤ 65536 }
        ensures plan { IfOk result (λ plan. IsPlanOf changed.now plan) }
        ensures room { IfOk result (λ plan. HasPlanRoom self.new (length plan.order.items + 1)) }
        ensures kept { kept_of self.new ≡ kept_of self.old }
        ensures same { self.new ≡ record self.old { index = self.new.index; commits = self.new.commits; spare = self.new.spare } }
        ensures pages { self.new.spare.pages ≡ self.old.spare.pages }
        ensures bytes { self.new.spare.bytes ≡ self.old.spare.bytes }
    {
        let order = order_of(self.alloc, changed)?;
        let wrote = written_pages(self.alloc, changed, order.as_slice())?;
        self.make_room(order.len() + 1)?;
        Ok(Plan { order, wrote })
    }

    // Makes room for a commit of so many pages.
    fn make_room(&mut self, count: usize) -> Result<(), AllocError>
        requires few { count ≤ 2 ^ 32 }
        requires small { self.old.page_size ≤ 65536 }
        ensures room { OnOk result (HasPlanRoom self.new count) }
        ensures kept { kept_of self.new ≡ kept_of self.old }
        ensures same { self.new ≡ record self.old { index = self.new.index; commits = self.new.commits; spare = self.new.spare } }
        ensures pages { self.new.spare.pages ≡ self.old.spare.pages }
        ensures bytes { self.new.spare.bytes ≡ self.old.spare.bytes }
    {
        self.index.reserve(count)?;
        self.commits.reserve()?;
        self.spare.reserve(count, self.page_size)
    }
}
