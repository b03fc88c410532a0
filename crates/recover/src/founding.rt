// The first commit of a new database, or of one whose versions aren't this program's.
//
// Its frames stand in log 1 behind a header of their own, and are on the medium before a byte of them is written to Main: while a page
// of Main is torn, the log has it. Log 2 has no frame meanwhile.
ghost use Rattle.std.specs.Prelude.{◌≡◌, ◌≢◌, ◌+◌, ◌-◌, ◌*◌, ◌≤◌, ◌<◌, true, is_ok, [], length, replicate, OnOk, OnErr, IfOk, IfSome, IsTrue, None};
ghost use Rattle.disk_face.specs.Faults.{Counts};
ghost use Rattle.disk_face.specs.Stays.{OnlyWrites};
ghost use Rattle.disk_face.specs.Steps.{reads};
ghost use Rattle.disk_face.specs.Told.{IsInside};
ghost use Rattle.disk_face.specs.declared.disk.File.TheVariants.{Main, Log1};
ghost use Rattle.log_spec.specs.LogHeader.{log_fields};
ghost use Rattle.wal_frames.specs.Front.{fields_for, IsLegalFront};
ghost use Rattle.wal_frames.specs.declared.header.Front.TheVariants.{Ours};
ghost use Rattle.crash_spec.specs.Opening.{Since};
ghost use Rattle.crash_spec.specs.Passes.{Passes, ByAnswer, WhereDone};
ghost use Rattle.log_pair.specs.Pair.{current_header, written_frames, new_pair};
ghost use Rattle.log_pair.specs.Appending.{IsReached};
ghost use Rattle.opening_spec.specs.Found.{FoundLog, OpeningView, IsNextHeader, next_log};
ghost use Rattle.opening_spec.specs.States.{AreSynced, IsWriting, IsLaidDown, IsResetting, LeavesMap, LeavesEither};
ghost use Rattle.recover.specs.NewPages.{first_then_zeros, new_pages, with_versions, migrated};
ghost use Rattle.recover.specs.Founding.{HoldFrom, IsCommitting, AppendsPages, CommitsPages, FailsToCommit, Founds, FoundsPages, FailsToFound, HasFounded, HasMigrated};

use crate::new_pages::{lay_first_page, new_count};
use crate::pages::{sync_main, write_page};
use crate::setup::StoreKind;
use disk_face::{Disk, Failed, File};
use log_pair::{LogPair, NewHeader};
use wal_frames::LogHeader;

/// Makes all bytes zero.
pub(crate) fn wipe(bytes: &mut [u8])
    ensures zeros { bytes.new ≡ replicate (length bytes.old) 0 }
    ensures length { length bytes.new ≡ length bytes.old }
{
    bytes.fill(0);
}

/// Appends the pages of the first commit: the one in the buffer, and behind it pages of zero bytes. The last one ends the commit, after
/// which the database has `size` pages. Where there are several, the buffer is zero then.
fn append_pages<D: Disk>(
    pair: &mut LogPair,
    disk: &mut D,
    buf: &mut [u8],
    pages: u32,
    size: u32,
) -> Result<(), Failed>
    requires attached { D.attached disk.old ≡ true }
    requires current { pair.old.current ≡ 1 }
    requires none { written_frames pair.old ≡ 0 }
    requires pages { 1 ≤ pages }
    requires size { size ≢ 0 }
    requires page_size { length buf.old ≡ (current_header pair.old).page_size }
    requires reached { IsReached (D.told disk.old) pair.old }
    ensures appended { OnOk result (AppendsPages pair.old pair.new (first_then_zeros buf.old) pages size (D.told disk.old) (D.told disk.new)) }
    ensures fails { OnErr result (FailsToCommit pair.old (first_then_zeros buf.old) pages size (D.told disk.old) (D.told disk.new)) }
    ensures bytes { OnOk result (buf.new ≡ first_then_zeros buf.old pages) }
    ensures current { pair.new.current ≡ 1 }
    ensures some { OnOk result (0 < pair.new.appended) }
    ensures room { length buf.new ≡ length buf.old }
    ensures stays { OnlyWrites D.DiskTells disk.old disk.new }
    ensures faults { Counts (is_ok result) (D.faults disk.old) (D.faults disk.new) }
{
    let mut number = 1;
    while number < pages {
        match pair.append(disk, number, buf, 0) {
            Ok(()) => {
                // All pages behind the first are zero.
                wipe(buf);
                number += 1;
            }
            Err(Failed) => return Err(Failed),
        }
    }
    match pair.append(disk, number, buf, size) {
        Ok(()) => Ok(()),
        Err(Failed) => Err(Failed),
    }
}

/// Makes the first commit in log 1: its pages are appended, as `append_pages` does, and reach the medium.
fn commit_pages<D: Disk>(
    pair: &mut LogPair,
    disk: &mut D,
    buf: &mut [u8],
    pages: u32,
    size: u32,
) -> Result<(), Failed>
    requires attached { D.attached disk.old ≡ true }
    requires current { pair.old.current ≡ 1 }
    requires none { written_frames pair.old ≡ 0 }
    requires pages { 1 ≤ pages }
    requires size { size ≢ 0 }
    requires page_size { length buf.old ≡ (current_header pair.old).page_size }
    requires reached { IsReached (D.told disk.old) pair.old }
    ensures committed { OnOk result (CommitsPages pair.old (first_then_zeros buf.old) pages size (D.told disk.old) (D.told disk.new)) }
    ensures fails { OnErr result (FailsToCommit pair.old (first_then_zeros buf.old) pages size (D.told disk.old) (D.told disk.new)) }
    ensures bytes { OnOk result (buf.new ≡ first_then_zeros buf.old pages) }
    ensures room { length buf.new ≡ length buf.old }
    ensures stays { OnlyWrites D.DiskTells disk.old disk.new }
    ensures faults { Counts (is_ok result) (D.faults disk.old) (D.faults disk.new) }
{
    match append_pages(pair, disk, buf, pages, size) {
        Ok(()) => match pair.seal(disk) {
            Ok(()) => Ok(()),
            Err(Failed) => Err(Failed),
        },
        Err(Failed) => Err(Failed),
    }
}

/// Gives log 1 the header behind which the first commit goes. `other` is one that log 2 may get.
fn begin_log<D: Disk>(disk: &mut D, header: &NewHeader, other: LogHeader) -> Result<LogPair, Failed>
    requires attached { D.attached disk.old ≡ true }
    requires one { IsLegalFront 1 (Ours header.now.header) }
    requires two { IsLegalFront 2 (Ours other) }
    requires same_size { other.page_size ≡ header.now.header.page_size }
    requires fields { log_fields header.now.bytes ≡ fields_for header.now.header }
    ensures pair { IfOk result (λ pair. pair ≡ new_pair 1 header.now.header other) }
    ensures reached { IfOk result (λ pair. IsReached (D.told disk.new) pair) }
    ensures moments { Founds header.now.bytes (is_ok result) (λ view later main one two. IsCommitting view later main (new_pair 1 header.now.header other) one two []) (D.told disk.old) (D.told disk.new) }
    ensures stays { OnlyWrites D.DiskTells disk.old disk.new }
    ensures faults { Counts (is_ok result) (D.faults disk.old) (D.faults disk.new) }
{
    match header.write(disk, File::Log1) {
        Ok(()) => Ok(LogPair::new(1, header.header, other)),
        Err(Failed) => Err(Failed),
    }
}

/// Gives log 1 this header, and makes the first commit behind it: the page in the buffer, and pages of zero bytes, as `append_pages`
/// does.
fn commit_first<D: Disk>(
    disk: &mut D,
    header: &NewHeader,
    other: LogHeader,
    buf: &mut [u8],
    pages: u32,
    size: u32,
) -> Result<(), Failed>
    requires attached { D.attached disk.old ≡ true }
    requires one { IsLegalFront 1 (Ours header.now.header) }
    requires two { IsLegalFront 2 (Ours other) }
    requires same_size { other.page_size ≡ header.now.header.page_size }
    requires fields { log_fields header.now.bytes ≡ fields_for header.now.header }
    requires pages { 1 ≤ pages }
    requires size { size ≢ 0 }
    requires page_size { length buf.old ≡ header.now.header.page_size }
    ensures committed { OnOk result (FoundsPages header.now.bytes (first_then_zeros buf.old) pages size (D.told disk.old) (D.told disk.new)) }
    ensures fails { OnErr result (FailsToFound header.now.bytes (first_then_zeros buf.old) pages size (D.told disk.old) (D.told disk.new)) }
    ensures bytes { OnOk result (buf.new ≡ first_then_zeros buf.old pages) }
    ensures room { length buf.new ≡ length buf.old }
    ensures stays { OnlyWrites D.DiskTells disk.old disk.new }
    ensures faults { Counts (is_ok result) (D.faults disk.old) (D.faults disk.new) }
{
    match begin_log(disk, header, other) {
        Ok(mut pair) => match commit_pages(&mut pair, disk, buf, pages, size) {
            Ok(()) => Ok(()),
            Err(Failed) => Err(Failed),
        },
        Err(Failed) => Err(Failed),
    }
}

/// Writes the pages of the first commit to Main: the one in the buffer, and behind it pages of zero bytes. Nothing is synced.
fn write_first<D: Disk>(disk: &mut D, buf: &mut [u8], pages: u32) -> Result<(), Failed>
    requires attached { D.attached disk.old ≡ true }
    requires small { length buf.old ≤ 65536 }
    requires pages { (1 ≤ pages) × (pages < 4294967295) }
    ensures moments { (view : OpeningView) (one two : FoundLog) → Since view.opening.start (IsWriting view one two 1) (D.told disk.old) → length buf.old ≡ view.size
        → two.frames ≡ [] → HoldFrom (first_then_zeros buf.old) 1 one.frames → length one.frames ≡ pages → pages ≤ length view.map
        → Passes view.opening (LeavesMap view) (ByAnswer (is_ok result) (IsWriting view one two (pages + 1)) (AreSynced view one two)) (D.told disk.old) (D.told disk.new) }
    ensures stays { OnlyWrites D.DiskTells disk.old disk.new }
    ensures faults { Counts (is_ok result) (D.faults disk.old) (D.faults disk.new) }
{
    let mut number = 1;
    while number <= pages {
        match write_page(disk, number, buf) {
            Ok(()) => {
                wipe(buf);
                number += 1;
            }
            Err(Failed) => return Err(Failed),
        }
    }
    Ok(())
}

/// Writes the pages of the first commit to Main, and has them reach the medium. After `Failed` log 1 still has all of them.
fn lay_first<D: Disk>(disk: &mut D, buf: &mut [u8], pages: u32) -> Result<(), Failed>
    requires attached { D.attached disk.old ≡ true }
    requires small { length buf.old ≤ 65536 }
    requires pages { (1 ≤ pages) × (pages < 4294967295) }
    ensures moments { (view : OpeningView) (one two : FoundLog) → Since view.opening.start (AreSynced view one two) (D.told disk.old) → length buf.old ≡ view.size
        → IfSome (D.told disk.old) (λ told. length (reads told).main ≡ view.long)
        → two.frames ≡ [] → HoldFrom (first_then_zeros buf.old) 1 one.frames → length one.frames ≡ pages → pages ≤ length view.map
        → Passes view.opening (LeavesMap view) (ByAnswer (is_ok result) (IsLaidDown view one two (pages + 1)) (AreSynced view one two)) (D.told disk.old) (D.told disk.new) }
    ensures stays { OnlyWrites D.DiskTells disk.old disk.new }
    ensures faults { Counts (is_ok result) (D.faults disk.old) (D.faults disk.new) }
{
    match write_first(disk, buf, pages) {
        Ok(()) => match sync_main(disk) {
            Ok(()) => Ok(()),
            Err(Failed) => Err(Failed),
        },
        Err(Failed) => Err(Failed),
    }
}

/// Makes a new database: its pages are committed in log 1, behind this header, and written to Main. `other` is one that log 2 may get.
pub(crate) fn found_new<D: Disk>(
    disk: &mut D,
    kind: StoreKind,
    header: &NewHeader,
    other: LogHeader,
    buf: &mut [u8],
) -> Result<(), Failed>
    requires attached { D.attached disk.old ≡ true }
    requires one { IsLegalFront 1 (Ours header.now.header) }
    requires two { IsLegalFront 2 (Ours other) }
    requires same_size { other.page_size ≡ header.now.header.page_size }
    requires fields { log_fields header.now.bytes ≡ fields_for header.now.header }
    requires page_size { length buf.old ≡ header.now.header.page_size }
    requires room { (108 ≤ length buf.old) × (length buf.old ≤ 65536) }
    ensures moments { (view : OpeningView) (one two : FoundLog) → Since view.opening.start (IsResetting view Log1 one two None) (D.told disk.old) → IsNextHeader Log1 one header.now.bytes
        → two.frames ≡ [] → length buf.old ≡ view.size → IfSome (D.told disk.old) (λ told. (reads told).main ≡ [])
        → Passes view.opening (LeavesEither view (new_pages kind view.size)) (WhereDone (is_ok result) (HasFounded view (new_pages kind view.size) [] (next_log one) two)) (D.told disk.old) (D.told disk.new) }
    ensures stays { OnlyWrites D.DiskTells disk.old disk.new }
    ensures faults { Counts (is_ok result) (D.faults disk.old) (D.faults disk.new) }
{
    lay_first_page(kind, buf);
    match commit_first(disk, header, other, buf, new_count(kind), new_count(kind)) {
        Ok(()) => {
            lay_first_page(kind, buf);
            match lay_first(disk, buf, new_count(kind)) {
                Ok(()) => Ok(()),
                Err(Failed) => Err(Failed),
            }
        }
        Err(Failed) => Err(Failed),
    }
}

/// Gives page 1 this program's versions.
fn set_versions(page: &mut [u8])
    requires { 20 ≤ length page.old }
    ensures { page.new ≡ with_versions page.old }
{
    page[18] = 3;
    page[19] = 3;
}

/// Gives a database of `size` pages this program's versions: its page 1, of which all is in Main, is committed with them in log 1, behind
/// this header, and written to Main. `other` is a header that log 2 may get.
pub(crate) fn found_migrated<D: Disk>(
    disk: &mut D,
    size: u32,
    header: &NewHeader,
    other: LogHeader,
    buf: &mut [u8],
) -> Result<(), Failed>
    requires attached { D.attached disk.old ≡ true }
    requires one { IsLegalFront 1 (Ours header.now.header) }
    requires two { IsLegalFront 2 (Ours other) }
    requires same_size { other.page_size ≡ header.now.header.page_size }
    requires fields { log_fields header.now.bytes ≡ fields_for header.now.header }
    requires page_size { length buf.old ≡ header.now.header.page_size }
    requires room { (108 ≤ length buf.old) × (length buf.old ≤ 65536) }
    requires size { size ≢ 0 }
    requires whole { IsInside (D.told disk.old) Main 0 (length buf.old) }
    ensures moments { (view : OpeningView) (one two : FoundLog) → Since view.opening.start (IsResetting view Log1 one two None) (D.told disk.old) → IsNextHeader Log1 one header.now.bytes
        → two.frames ≡ [] → length buf.old ≡ view.size → IfSome (D.told disk.old) (λ told. (length view.map ≡ size) × (size * view.size ≤ length (reads told).main))
        → Passes view.opening (LeavesEither view (migrated view.map)) (WhereDone (is_ok result) (HasMigrated view (next_log one) two)) (D.told disk.old) (D.told disk.new) }
    ensures stays { OnlyWrites D.DiskTells disk.old disk.new }
    ensures faults { Counts (is_ok result) (D.faults disk.old) (D.faults disk.new) }
{
    match disk.read_at(File::Main, 0, buf) {
        Ok(()) => {
            set_versions(buf);
            match commit_first(disk, header, other, buf, 1, size) {
                Ok(()) => match lay_first(disk, buf, 1) {
                    Ok(()) => Ok(()),
                    Err(Failed) => Err(Failed),
                },
                Err(Failed) => Err(Failed),
            }
        }
        Err(Failed) => Err(Failed),
    }
}
