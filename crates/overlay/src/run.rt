// A run of items that grows at any place.
//
// A transaction is handed in to a commit with its lists as `Items`, and a commit that is refused hands them back. They serve as they
// are until the first item has to be put between others: then they move into a `Vec`, and no item is copied.
ghost use Rattle.std.specs.Prelude.{◌≡◌, ◌+◌, ◌<◌, ◌≤◌, length, slice_set, true, IfOk, OnOk, OnErr};
ghost use Rattle.std.specs.List.{insert, remove};

use sqlite_items::Items;
use std::alloc::{AllocError, Global};

/// A run of items.
#[derive(Drop)]
pub enum Run<T> {
    /// As it grows.
    Open(Vec<T>),
    /// As it was handed back.
    Frozen(Items<T>),
}

impl<T: Drop> Run<T> {
    ghost use Rattle.overlay.specs.Runs.{items_in, room_in, run_is_open};

    /// All items.
    pub fn as_slice(&self) -> &[T]
        ensures { result.now ≡ items_in self.now }
    {
        match self {
            Run::Open(items) => items.as_slice(),
            Run::Frozen(items) => items.as_slice(),
        }
    }

    // Moves the items to where more can be put between them. The error is want of memory.
    fn unfreeze(&mut self, alloc: Global) -> Result<(), AllocError>
        ensures items { items_in self.new ≡ items_in self.old }
        ensures room { room_in self.old ≤ room_in self.new }
        ensures run_is_open { OnOk result (run_is_open self.new ≡ true) }
    {
        if let Run::Frozen(items) = self {
            let moved = moved(alloc, items)?;
            *self = Run::Open(moved);
        }
        Ok(())
    }

    /// Takes room for so many items more. The error is want of memory. The items stay as they are, and no room is lost.
    pub fn reserve(&mut self, alloc: Global, more: usize) -> Result<(), AllocError>
        ensures items { items_in self.new ≡ items_in self.old }
        ensures no_less { room_in self.old ≤ room_in self.new }
        ensures room { OnOk result (more ≤ room_in self.new) }
    {
        self.unfreeze(alloc)?;
        match self {
            Run::Open(items) => items.reserve(more),
            Run::Frozen(_) => unreachable!(),
        }
    }

    /// Puts an item at a place, into room that there is. It takes no memory.
    pub fn insert_reserved(&mut self, at: usize, item: T)
        requires place { at ≤ length (items_in self.old) }
        requires room { 1 ≤ room_in self.old }
        ensures items { items_in self.new ≡ insert (items_in self.old) at item }
        ensures room { room_in self.old ≤ room_in self.new + 1 }
    {
        match self {
            Run::Open(items) => {
                let Ok(()) = items.insert(at, item) else {
                    unreachable!()
                };
            }
            Run::Frozen(_) => unreachable!(),
        }
    }

    /// Puts an item in the place of another. It takes no memory.
    pub fn set(&mut self, at: usize, item: T)
        requires { at < length (items_in self.old) }
        ensures items { items_in self.new ≡ slice_set (items_in self.old) at item }
        ensures room { room_in self.new ≡ room_in self.old }
    {
        match self {
            Run::Open(items) => items[at] = item,
            Run::Frozen(items) => items.set(at, item),
        }
    }

    /// Takes an item out. It takes no memory.
    pub fn remove(&mut self, at: usize)
        requires { at < length (items_in self.old) }
        ensures { items_in self.new ≡ remove (items_in self.old) at }
    {
        match self {
            Run::Open(items) => {
                items.remove(at);
            }
            Run::Frozen(items) => {
                items.remove(at);
            }
        }
    }

    /// All items, which aren't copied. It takes no memory.
    pub fn into_items(self) -> Items<T>
        ensures { result ≡ items_in self }
    {
        match self {
            Run::Open(items) => Items::from_vec(items),
            Run::Frozen(items) => items,
        }
    }
}

// Moves the items into a `Vec`. The error is want of memory, and leaves them.
fn moved<T: Drop>(alloc: Global, items: &mut Items<T>) -> Result<Vec<T>, AllocError>
    ensures ok { IfOk result (λ all. all.items ≡ items.old) }
    ensures err { OnErr result (items.new ≡ items.old) }
{
    let mut all = Vec::with_capacity(alloc, items.len())?;
    while let Some(item) = items.pop() {
        all.push_reserved(item);
    }
    all.reverse();
    Ok(all)
}
