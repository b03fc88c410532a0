// Room in lists that grow with a log.
ghost use Rattle.std.specs.Prelude.{◌≡◌, ◌+◌, ◌≤◌, vec_len, OnOk};
ghost use Rattle.std.specs.Vec.{vec_capacity};

use std::alloc::AllocError;

// Makes room for so many items more. It grows by an eighth at least, so that items are moved seldom and a list is at most an eighth larger than what it
// holds: doubling would take twice the memory for a log of a hundred thousand frames.
pub fn make_room<T>(items: &mut Vec<T>, more: usize) -> Result<(), AllocError>
    ensures room { OnOk result (vec_len items.new + more ≤ vec_capacity items.new) }
    ensures capacity { vec_capacity items.old ≤ vec_capacity items.new }
    ensures items { items.new.items ≡ items.old.items }
    ensures len { vec_len items.new ≡ vec_len items.old }
{
    if more <= items.capacity() - items.len() {
        return Ok(());
    }
    items.reserve_exact(more.max(items.len() / 8))
}
