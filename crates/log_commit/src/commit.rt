// Pages are appended to the current log, and sealed as one commit.
ghost use Rattle.std.specs.Prelude.{◌≡◌, ◌≢◌, ◌+◌, ◌<◌, ◌≤◌, List, take, get_or, true, length, is_ok, OnOk, OnErr, All, Option};
ghost use Rattle.disk_face.specs.Faults.{Counts};
ghost use Rattle.disk_face.specs.Stays.{OnlyWrites};
ghost use Rattle.disk_face.specs.Steps.{History, after};
ghost use Rattle.disk_face.specs.declared.step.Step.TheVariants.{Synced};
ghost use Rattle.log_spec.specs.Accept.{Frame};
ghost use Rattle.log_pair.specs.Pair.{log_of, current_file, current_header, written_frames};
ghost use Rattle.log_pair.specs.Appending.{IsReached};
ghost use Rattle.log_commit.specs.GoesBy.{GoesBy};
ghost use Rattle.log_commit.specs.Commit.{WritesCommit, SameElsewhere, IsCommitStep, with_appended, in_order, no_image};
ghost use Rattle.log_commit.specs.Pages.{images_of};
ghost use Rattle.log_commit.specs.Appended.{HasAppended, FailsToAppend, AppendsImage};

use disk_face::{Disk, Failed};
use engine_spec::PageImage;
use log_pair::LogPair;

/// The pages that a commit writes, lent as a transaction keeps them. Page 1 stands first; behind it stand those of the changed pages that the order
/// names, in that order.
#[derive(Clone, Copy, Debug)]
pub struct CommitPages<'a> {
    /// The bytes of page 1.
    pub first: &'a [u8],
    /// Images of pages.
    pub changed: &'a [PageImage],
    /// Places in `changed`, counted from 0.
    pub order: &'a [u32],
}

/// Writes the pages of a commit to the current log of a pair: a frame for each, in their order, of which the last one ends the commit, and one
/// sync. `size` is the size of the database in pages after it.
///
/// After `Failed` the count of faults rose, and nothing more may be written: some of the commit may be on its way.
pub fn write_commit<D: Disk>(
    pair: &mut LogPair,
    disk: &mut D,
    pages: &CommitPages,
    size: u32,
) -> Result<(), Failed>
    requires attached { D.attached disk.old ≡ true }
    requires sealed { pair.old.appended ≡ 0 }
    requires first { length pages.now.first.now ≡ (current_header pair.old).page_size }
    requires order { All (λ place. place < length pages.now.changed.now) pages.now.order.now }
    requires pages { All (λ image. (0 < image.page) × (length image.bytes ≡ (current_header pair.old).page_size)) (in_order pages.now.changed.now pages.now.order.now) }
    requires size { size ≢ 0 }
    requires room { (log_of pair.old pair.old.current).frames + (length pages.now.order.now + 1) ≤ 4294967295 }
    requires reached { IsReached (D.told disk.old) pair.old }
    ensures writes { (more : List Frame) × WritesCommit (is_ok result) pair.old pair.new (images_of pages.now) size more (D.told disk.old) (D.told disk.new) }
    ensures steps { GoesBy (IsCommitStep (current_file pair.old) (current_header pair.old)) (D.told disk.old) (D.told disk.new) }
    ensures synced { OnOk result ((mid : Option History) × (D.told disk.new ≡ after (Synced (current_file pair.old)) mid)
        × GoesBy (IsCommitStep (current_file pair.old) (current_header pair.old)) (D.told disk.old) mid) }
    ensures reached { OnOk result (IsReached (D.told disk.new) pair.new) }
    ensures fits { written_frames pair.new ≤ 4294967295 }
    ensures elsewhere { SameElsewhere (current_file pair.old) (D.told disk.old) (D.told disk.new) }
    ensures stays { OnlyWrites D.DiskTells disk.old disk.new }
    ensures faults { Counts (is_ok result) (D.faults disk.old) (D.faults disk.new) }
{
    match append_pages(pair, disk, pages) {
        Ok(()) => match append_page(pair, disk, pages, pages.order.len(), size) {
            Ok(()) => pair.seal(disk),
            Err(Failed) => Err(Failed),
        },
        Err(Failed) => Err(Failed),
    }
}

// Appends a frame for each page but the last, none of which ends a commit.
fn append_pages<D: Disk>(
    pair: &mut LogPair,
    disk: &mut D,
    pages: &CommitPages,
) -> Result<(), Failed>
    requires attached { D.attached disk.old ≡ true }
    requires sealed { pair.old.appended ≡ 0 }
    requires first { length pages.now.first.now ≡ (current_header pair.old).page_size }
    requires order { All (λ place. place < length pages.now.changed.now) pages.now.order.now }
    requires pages { All (λ image. (0 < image.page) × (length image.bytes ≡ (current_header pair.old).page_size)) (in_order pages.now.changed.now pages.now.order.now) }
    requires room { (log_of pair.old pair.old.current).frames + (length pages.now.order.now + 1) ≤ 4294967295 }
    requires reached { IsReached (D.told disk.old) pair.old }
    ensures appended { OnOk result (HasAppended pair.old pair.new (take (length pages.now.order.now) (images_of pages.now)) (D.told disk.old) (D.told disk.new)) }
    ensures fails { OnErr result (FailsToAppend pair.old (D.told disk.old) (D.told disk.new)) }
    ensures becomes { pair.new ≡ with_appended pair.old pair.new }
    ensures counted { OnOk result (pair.new.appended ≡ length pages.now.order.now) }
    ensures few { pair.new.appended ≤ length pages.now.order.now }
    ensures reached { OnOk result (IsReached (D.told disk.new) pair.new) }
    ensures steps { GoesBy (IsCommitStep (current_file pair.old) (current_header pair.old)) (D.told disk.old) (D.told disk.new) }
    ensures elsewhere { SameElsewhere (current_file pair.old) (D.told disk.old) (D.told disk.new) }
    ensures stays { OnlyWrites D.DiskTells disk.old disk.new }
    ensures faults { Counts (is_ok result) (D.faults disk.old) (D.faults disk.new) }
{
    let mut index = 0;
    while index < pages.order.len() {
        match append_page(pair, disk, pages, index, 0) {
            Ok(()) => index += 1,
            Err(Failed) => return Err(Failed),
        }
    }
    Ok(())
}

// Appends a frame for one of the pages, counted from 0.
fn append_page<D: Disk>(
    pair: &mut LogPair,
    disk: &mut D,
    pages: &CommitPages,
    index: usize,
    size: u32,
) -> Result<(), Failed>
    requires attached { D.attached disk.old ≡ true }
    requires first { length pages.now.first.now ≡ (current_header pair.old).page_size }
    requires order { All (λ place. place < length pages.now.changed.now) pages.now.order.now }
    requires pages { All (λ image. (0 < image.page) × (length image.bytes ≡ (current_header pair.old).page_size)) (in_order pages.now.changed.now pages.now.order.now) }
    requires index { index ≤ length pages.now.order.now }
    requires room { written_frames pair.old < 4294967295 }
    requires reached { IsReached (D.told disk.old) pair.old }
    ensures appends { AppendsImage (is_ok result) pair.old pair.new (get_or (images_of pages.now) index no_image) size (D.told disk.old) (D.told disk.new) }
    ensures counted { OnOk result (pair.new.appended ≡ pair.old.appended + 1) }
    ensures refused { OnErr result (pair.new ≡ pair.old) }
    ensures reached { OnOk result (IsReached (D.told disk.new) pair.new) }
    ensures stays { OnlyWrites D.DiskTells disk.old disk.new }
    ensures faults { Counts (is_ok result) (D.faults disk.old) (D.faults disk.new) }
{
    if index == 0 {
        pair.append(disk, 1, pages.first, size)
    } else {
        let image = &pages.changed[pages.order[index - 1] as usize];
        pair.append(disk, image.page, image.bytes.bytes(), size)
    }
}
