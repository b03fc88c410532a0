// Which call fails, and how often calls have failed.
ghost use Rattle.std.specs.Prelude.{◌≡◌, IsTrue, ◌↔◌, Some};
ghost use Rattle.disk_face.specs.Faults.{Rose, one_more};
ghost use Rattle.disk_mem.specs.Fuse.{burnt};

/// Whether this call is the one that fails, and what names that call from now on.
pub fn burn(fails_in: &mut Option<u64>) -> bool
    ensures due { IsTrue result ↔ (fails_in.old ≡ Some 1) }
    ensures after { fails_in.new ≡ burnt fails_in.old }
{
    match *fails_in {
        Some(calls) => {
            *fails_in = Some(calls.saturating_sub(1));
            calls == 1
        }
        None => false,
    }
}

/// Counts a fault.
pub fn count_fault(faults: &mut u64)
    ensures rose { Rose faults.old faults.new }
    ensures by_one { faults.new ≡ one_more faults.old }
{
    *faults = faults.saturating_add(1);
}
