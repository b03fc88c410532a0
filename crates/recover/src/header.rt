// Both logs are begun anew.
//
// The log of lower generation is first: while its header is torn, Main with the other log's frames is the map. The other way round a
// torn header would uncover older frames.
ghost use Rattle.std.specs.Prelude.{◌≡◌, ◌⊎◌, ◌+◌, ◌%◌, ◌<◌, ◌^◌, true, false, is_ok, Option, Some, None, IsTrue, ◌≤◌, max};
ghost use Rattle.disk_face.specs.Faults.{Counts};
ghost use Rattle.disk_face.specs.Stays.{OnlyWrites};
ghost use Rattle.disk_face.specs.declared.disk.File.{File as Files};
ghost use Rattle.disk_face.specs.declared.disk.File.TheVariants.{Log1, Log2};
ghost use Rattle.page_spec.specs.Header.{is_page_size};
ghost use Rattle.log_spec.specs.LogHeader.{LogFields, log_fields, is_generation, last_generation};
ghost use Rattle.wal_frames.specs.Front.{fields_for, IsLegalFront};
ghost use Rattle.wal_frames.specs.Found.{log_file};
ghost use Rattle.crash_spec.specs.Marks.{other_of};
ghost use Rattle.crash_spec.specs.Opening.{Since};
ghost use Rattle.crash_spec.specs.Passes.{Passes, WhereDone};
ghost use Rattle.opening_spec.specs.Found.{FoundLog, OpeningView, IsNextHeader, found_log, next_log};
ghost use Rattle.opening_spec.specs.States.{IsResetting, HasReset, IsSettled, MayBeOurs, LeavesMap, header1_of, header2_of};
ghost use Rattle.recover.specs.Headers.{last_salt, generation_in, next_even, first_of};
ghost use Rattle.recover.specs.Seeing.{next_odd, last_written, newest_of};
ghost use Rattle.wal_frames.specs.declared.header.Front.TheVariants.{Ours};

use disk_face::{Disk, Failed, File, Salts};
use log_pair::NewHeader;
use wal_frames::{Front, LogHeader, Sum};

/// The new headers of both logs, in the order in which they are written.
#[derive(Drop)]
pub(crate) struct NewHeaders {
    /// The log that gets its header first, and that header.
    pub(crate) first: File,
    pub(crate) here: NewHeader,
    /// The other log, and its header.
    pub(crate) second: File,
    pub(crate) there: NewHeader,
    /// What the headers of log 1 and of log 2 tell.
    pub(crate) one: LogHeader,
    pub(crate) two: LogHeader,
}

/// The first salt of a log's next header: one more than the last, from 1 on where the log has no header of ours.
fn next_salt(front: &Front) -> u32
    ensures { result ≡ (last_salt front.now + 1) % 2 ^ 32 }
{
    match *front {
        Front::Ours(header) => header.salt1.wrapping_add(1),
        Front::Foreign { .. } => 1,
        Front::Nothing => 1,
    }
}

/// The next header of log 1 or log 2, which begins with `front`.
fn next_header(front: &Front, log: u8, page_size: u32, generation: u32, salt2: u32) -> NewHeader
    requires which { (log ≡ 1) ⊎ (log ≡ 2) }
    requires page_size { IsTrue (is_page_size page_size) }
    requires generation { IsTrue (is_generation log generation) }
    ensures next { (has : FoundLog) → has.salt ≡ last_salt front.now % 2 ^ 32 → has.most ≤ 1 → has.most + 1 ≤ generation → IsNextHeader (log_file log) has result.bytes }
    ensures fields { log_fields result.bytes ≡ fields_for result.header }
    ensures legal { IsLegalFront log (Front.Ours result.header) }
    ensures page_size { result.header.page_size ≡ page_size }
    ensures generation { result.header.generation ≡ generation }
    ensures salt { result.header.salt1 < 2 ^ 32 }
{
    NewHeader::sign(&LogHeader {
        big: true,
        page_size,
        generation,
        salt1: next_salt(front),
        salt2,
        sum: Sum { s0: 0, s1: 0 },
    })
}

/// The generation of a log's header, 0 where it has none of ours.
fn generation_of(front: &Front) -> u32
    ensures { result ≡ generation_in front.now }
{
    match *front {
        Front::Ours(header) => header.generation,
        Front::Foreign { .. } => 0,
        Front::Nothing => 0,
    }
}

/// The greatest generation of a header of ours, 0 where there is none.
fn newest_generation(one: &Front, two: &Front) -> u32
    ensures { result ≡ max (generation_in one.now) (generation_in two.now) }
{
    let first = generation_of(one);
    let second = generation_of(two);
    if first < second { second } else { first }
}

/// The least even generation from two more than this one on.
fn even_generation(newest: u32) -> u32
    requires { newest + 4 ≤ last_generation }
    ensures even { IsTrue (is_generation 2 result) }
    ensures odd { IsTrue (is_generation 1 (result + 1)) }
    ensures least { result ≡ next_even newest }
    ensures room { result + 1 ≤ last_generation }
{
    newest + 2 + newest % 2
}

/// The least odd generation from two more than this one on.
fn odd_generation(newest: u32) -> u32
    requires { newest + 3 ≤ last_generation }
    ensures odd { IsTrue (is_generation 1 result) }
    ensures least { result ≡ next_odd newest }
{
    newest + 3 - newest % 2
}

/// The headers that both logs get next, where log 1 begins with `one` and log 2 with `two`.
///
/// Log 2 gets the least even generation from two more than the greatest one on, log 1 the one after it. The log of lower generation, or
/// without a header of ours, is first; where neither has one, log 2 is. A salt is taken for each, in the order of writing.
pub(crate) fn next_headers<W: Salts>(
    salts: &mut W,
    one: &Front,
    two: &Front,
    page_size: u32,
) -> NewHeaders
    requires page_size { IsTrue (is_page_size page_size) }
    requires room { max (generation_in one.now) (generation_in two.now) + 4 ≤ last_generation }
    ensures first { result.first ≡ first_of one.now two.now }
    ensures second { result.second ≡ other_of result.first }
    ensures next { (has1 has2 : FoundLog) → has1.salt ≡ last_salt one.now % 2 ^ 32 → has2.salt ≡ last_salt two.now % 2 ^ 32 → has1.most ≤ 1 → has2.most ≤ 1
        → IsNextHeader result.first (found_log result.first has1 has2) result.here.bytes × IsNextHeader (other_of result.first) (found_log (other_of result.first) has1 has2) result.there.bytes }
    ensures one { fields_for result.one ≡ header1_of result.first (log_fields result.here.bytes) (log_fields result.there.bytes) }
    ensures two { fields_for result.two ≡ header2_of result.first (log_fields result.here.bytes) (log_fields result.there.bytes) }
    ensures legal { IsLegalFront 1 (Ours result.one) × IsLegalFront 2 (Ours result.two) }
    ensures sizes { (result.one.page_size ≡ page_size) × (result.two.page_size ≡ page_size) }
    ensures generations { result.one.generation ≡ result.two.generation + 1 }
    ensures least { result.one.generation ≡ last_written false (newest_of one.now two.now) }
    ensures salts { (result.one.salt1 < 2 ^ 32) × (result.two.salt1 < 2 ^ 32) }
    ensures loans { W.loans salts.new ≡ W.loans salts.old }
{
    let even = even_generation(newest_generation(one, two));
    if generation_of(one) < generation_of(two) {
        let here = next_header(one, 1, page_size, even + 1, salts.word());
        let there = next_header(two, 2, page_size, even, salts.word());
        NewHeaders {
            first: File::Log1,
            one: here.header,
            here,
            second: File::Log2,
            two: there.header,
            there,
        }
    } else {
        let here = next_header(two, 2, page_size, even, salts.word());
        let there = next_header(one, 1, page_size, even + 1, salts.word());
        NewHeaders {
            first: File::Log2,
            two: here.header,
            here,
            second: File::Log1,
            one: there.header,
            there,
        }
    }
}

/// The headers of an opening that makes a commit of its own.
#[derive(Drop)]
pub(crate) struct FirstHeaders {
    /// That of log 1, behind which the commit goes.
    pub(crate) commit: NewHeader,
    /// Those that both logs get after it, log 2 first.
    pub(crate) after: NewHeaders,
}

/// The headers of an opening that makes a commit of its own, where log 1 begins with `one` and log 2 with `two`.
///
/// Log 1 gets the least odd generation from two more than the greatest one on, and a first salt more; then both get theirs as
/// `next_headers` says.
pub(crate) fn first_headers<W: Salts>(
    salts: &mut W,
    one: &Front,
    two: &Front,
    page_size: u32,
) -> FirstHeaders
    requires page_size { IsTrue (is_page_size page_size) }
    requires room { next_odd (max (generation_in one.now) (generation_in two.now)) + 4 ≤ last_generation }
    ensures next { (has1 has2 : FoundLog) → has1.salt ≡ last_salt one.now % 2 ^ 32 → has2.salt ≡ last_salt two.now % 2 ^ 32 → has1.most ≡ 0 → has2.most ≡ 0
        → IsNextHeader Log1 has1 result.commit.bytes × IsNextHeader Log2 has2 result.after.here.bytes × IsNextHeader Log1 (next_log has1) result.after.there.bytes }
    ensures fields { log_fields result.commit.bytes ≡ fields_for result.commit.header }
    ensures one { fields_for result.after.one ≡ log_fields result.after.there.bytes }
    ensures two { fields_for result.after.two ≡ log_fields result.after.here.bytes }
    ensures legal { IsLegalFront 1 (Ours result.commit.header) × IsLegalFront 1 (Ours result.after.one) × IsLegalFront 2 (Ours result.after.two) }
    ensures sizes { (result.commit.header.page_size ≡ page_size) × (result.after.one.page_size ≡ page_size) × (result.after.two.page_size ≡ page_size) }
    ensures generations { result.after.one.generation ≡ result.after.two.generation + 1 }
    ensures least { result.after.one.generation ≡ last_written true (newest_of one.now two.now) }
    ensures salts { (result.after.one.salt1 < 2 ^ 32) × (result.after.two.salt1 < 2 ^ 32) }
    ensures loans { W.loans salts.new ≡ W.loans salts.old }
{
    let generation = odd_generation(newest_generation(one, two));
    let commit = next_header(one, 1, page_size, generation, salts.word());
    let after = next_headers(salts, &Front::Ours(commit.header), two, page_size);
    FirstHeaders { commit, after }
}

/// Gives a log its new header, and has it reach the medium.
fn reset_log<D: Disk>(disk: &mut D, log: File, header: &NewHeader) -> Result<(), Failed>
    requires { D.attached disk.old ≡ true }
    ensures moments { (view : OpeningView) (one two : FoundLog) (beside : Option LogFields) → Since view.opening.start (IsResetting view log one two beside) (D.told disk.old)
        → IsNextHeader log (found_log log one two) header.now.bytes → (log ≡ Log2 → MayBeOurs view)
        → Passes view.opening (LeavesMap view) (WhereDone (is_ok result) (HasReset view log (log_fields header.now.bytes) one two beside)) (D.told disk.old) (D.told disk.new) }
    ensures stays { OnlyWrites D.DiskTells disk.old disk.new }
    ensures faults { Counts (is_ok result) (D.faults disk.old) (D.faults disk.new) }
{
    header.write(disk, log)
}

/// Gives both logs their new headers, the first one first.
pub(crate) fn reset_logs<D: Disk>(
    disk: &mut D,
    first: File,
    here: &NewHeader,
    second: File,
    there: &NewHeader,
) -> Result<(), Failed>
    requires attached { D.attached disk.old ≡ true }
    requires other { second ≡ other_of first }
    ensures moments { (view : OpeningView) (one two : FoundLog) → Since view.opening.start (IsResetting view first one two None) (D.told disk.old) → MayBeOurs view
        → IsNextHeader first (found_log first one two) here.now.bytes → IsNextHeader (other_of first) (found_log (other_of first) one two) there.now.bytes
        → Passes view.opening (LeavesMap view) (WhereDone (is_ok result) (IsSettled view (header1_of first (log_fields here.now.bytes) (log_fields there.now.bytes)) (header2_of first (log_fields here.now.bytes) (log_fields there.now.bytes)))) (D.told disk.old) (D.told disk.new) }
    ensures stays { OnlyWrites D.DiskTells disk.old disk.new }
    ensures faults { Counts (is_ok result) (D.faults disk.old) (D.faults disk.new) }
{
    match reset_log(disk, first, here) {
        Ok(()) => match reset_log(disk, second, there) {
            Ok(()) => Ok(()),
            Err(Failed) => Err(Failed),
        },
        Err(Failed) => Err(Failed),
    }
}
