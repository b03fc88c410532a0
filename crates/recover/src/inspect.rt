// A look at a database's files, which only reads: it is told what stands there, or why it isn't opened.
ghost use Rattle.std.specs.Prelude.{◌≡◌, ◌==◌, ◌&&◌, ◌||◌, ℕ, true, false, Some, None, IfOk, IfErr, IsTrue};
ghost use Rattle.disk_face.specs.Faults.{Counts};
ghost use Rattle.disk_face.specs.Files.{Files};
ghost use Rattle.disk_face.specs.Stays.{OnlyReads};
ghost use Rattle.page_spec.specs.Header.{is_page_size};
ghost use Rattle.recover.specs.Seeing.{RefusesLook, HasSeen, IsSeen, IsWholeSeen, files_told, missing_fault, is_some_list};
ghost use Rattle.recover.specs.Looking.{AreRead, IsLegalLook, IsSeenFault, is_disk_fine, logs_read, size_over, pages_told, named_read};

use crate::judge::judge;
use crate::places::{find_places, generation_of};
use crate::scan::{First, Looked, read_files};
use crate::seen::{LookFault, Seen};
use crate::setup::Setup;
use disk_face::Disk;
use std::alloc::Global;
use wal_frames::Accepted;

/// The size in pages after a log, where it was so many below.
fn size_over(found: &Accepted, below: u32) -> u32
    ensures { result ≡ size_over found.now.size below }
{
    if found.size == 0 { below } else { found.size }
}

/// The size in pages of the recovered map, where page 1 gives so many.
fn count_pages(one: &Accepted, two: &Accepted, given: u32) -> u32
    ensures { result ≡ pages_told one.now two.now given }
{
    if generation_of(&one.front) < generation_of(&two.front) {
        size_over(two, size_over(one, given))
    } else {
        size_over(one, size_over(two, given))
    }
}

/// The size in pages that page 1 names for Main, once it has so many pages.
fn size_named(first: &First, count: u32) -> u32
    ensures { result ≡ named_read first.now count }
{
    if first.counts {
        first.header.pages
    } else {
        first.header.pages.max(count)
    }
}

/// What is seen of a database of which nothing is there yet.
#[tactic(auto, unfolding(page_spec::specs::Header::is_page_size))]
fn see_new(alloc: Global, looked: &Looked, page_size: u32) -> Seen
    requires legal { IsLegalLook looked.now }
    requires page_size { IsTrue (is_page_size page_size) }
    requires judged { logs_read looked.now ≡ None }
    requires new { looked.now.page1 ≡ None }
    ensures whole { IsWholeSeen result }
    ensures seen { (files : Files) → AreRead files looked.now → IsSeen page_size files result }
    ensures none { (files : Files) → AreRead files looked.now → missing_fault files ≡ None }
    ensures size { result.page_size ≡ page_size }
{
    Seen {
        is_new: true,
        page_size,
        usable: page_size,
        is_ours: false,
        named: 0,
        byte: 0,
        one: looked.one.front,
        two: looked.two.front,
        some_frames: false,
        places: Vec::new(alloc),
    }
}

/// The versions on page 1 are this program's.
fn is_ours(first: &First) -> bool
    ensures { result ≡ (first.now.header.versions.0 == 3 && first.now.header.versions.1 == 3) }
{
    first.header.versions.0 == 3 && first.header.versions.1 == 3
}

/// A log has an accepted frame.
fn has_frames(one: &Accepted, two: &Accepted) -> bool
    ensures { result ≡ (is_some_list one.now.pages.items || is_some_list two.now.pages.items) }
{
    !(one.pages.is_empty() && two.pages.is_empty())
}

/// What is seen of a database that is there, with this page 1.
fn see_old(alloc: Global, looked: &Looked, first: &First) -> Result<Seen, LookFault>
    requires legal { IsLegalLook looked.now }
    requires judged { logs_read looked.now ≡ None }
    requires old { looked.now.page1 ≡ Some first.now }
    ensures whole { IfOk result (λ seen. IsWholeSeen seen) }
    ensures seen { (new_size : ℕ) (files : Files) → AreRead files looked.now → IfOk result (λ seen. IsSeen new_size files seen) }
    ensures none { (files : Files) → AreRead files looked.now → IfOk result (λ seen. missing_fault files ≡ None) }
    ensures old { IfOk result (λ seen. seen.is_new ≡ false) }
    ensures refused { IfErr result (λ why. IsSeenFault looked.now why) }
{
    let header = first.header;
    let count = count_pages(&looked.one, &looked.two, header.pages);
    if count == 0 {
        return Err(LookFault::Missing { page: 1 });
    }
    match find_places(
        alloc,
        &looked.one,
        &looked.two,
        looked.main,
        header.page_size,
        count,
    ) {
        Ok(places) => Ok(Seen {
            is_new: false,
            page_size: header.page_size,
            usable: header.page_size - u32::from(header.reserved),
            is_ours: is_ours(first),
            named: size_named(first, count),
            byte: first.byte,
            one: looked.one.front,
            two: looked.two.front,
            some_frames: has_frames(&looked.one, &looked.two),
            places,
        }),
        Err(fault) => Err(fault),
    }
}

/// What is seen of a database, once nothing else bars it.
fn see(alloc: Global, looked: &Looked, new_size: u32) -> Result<Seen, LookFault>
    requires legal { IsLegalLook looked.now }
    requires page_size { IsTrue (is_page_size new_size) }
    requires judged { logs_read looked.now ≡ None }
    ensures whole { IfOk result (λ seen. IsWholeSeen seen) }
    ensures seen { (files : Files) → AreRead files looked.now → IfOk result (λ seen. IsSeen new_size files seen) }
    ensures none { (files : Files) → AreRead files looked.now → IfOk result (λ seen. missing_fault files ≡ None) }
    ensures size { IfOk result (λ seen. seen.is_new ≡ true → seen.page_size ≡ new_size) }
    ensures refused { IfErr result (λ why. IsSeenFault looked.now why) }
{
    match looked.page1 {
        Some(first) => see_old(alloc, looked, &first),
        None => Ok(see_new(alloc, looked, new_size)),
    }
}

/// Looks at a database's files, and says what an opening sees of them, or why they aren't opened. It only reads.
///
/// Of causes that stand together the first of [`LookFault`]'s list is told, each exactly where the files, or the journal's answer, show it. `Disk` comes
/// where a call on the disk failed, before what would have been told after it. `Memory` is want of memory for the page numbers of both logs or for
/// 16 bytes a page; more than 4,294,967,295 frames of a log, or as many pages that are whole, count as that. Where nothing is there yet `setup`
/// says the page size.
pub fn look<D: Disk>(alloc: Global, disk: &mut D, setup: &Setup) -> Result<Seen, LookFault>
    requires attached { D.attached disk.old ≡ true }
    requires page_size { IsTrue (is_page_size setup.now.page_size) }
    ensures seen { IfOk result (λ seen. HasSeen setup.now.page_size (files_told (D.told disk.old)) (D.journal_answer disk.old) seen) }
    ensures refused { IfErr result (λ why. RefusesLook (D.faults disk.old) (D.faults disk.new) (files_told (D.told disk.old)) (D.journal_answer disk.old) why) }
    ensures stays { OnlyReads D.DiskTells disk.old disk.new }
    ensures faults { Counts (is_disk_fine result) (D.faults disk.old) (D.faults disk.new) }
{
    match read_files(alloc, disk) {
        Ok(looked) => match judge(disk, &looked) {
            Ok(()) => match see(alloc, &looked, setup.page_size) {
                Ok(seen) => Ok(seen),
                Err(fault) => Err(fault),
            },
            Err(fault) => Err(fault),
        },
        Err(fault) => Err(fault),
    }
}
