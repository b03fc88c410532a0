// A check of the files of a path: the files are named and opened as a store of tables, and what the check of it counted is written.
ghost use Rattle.std.specs.Prelude.{◌≡◌, ◌++◌, List, ℕ, false, true, decimal, OnOk};
ghost use Rattle.disk_checks.specs.Checks.{ChecksOnDisk, ChecksOpened, SaysCount, count_line, page_size_checked};

use check_spec::Count;
use disk_face::{Disk, Failed, Salts, Sink};
use disk_runs::say_why;
use page_lines::Raw;
use page_runs::{Status, say_last};
use recover::{Setup, StoreKind};
use std::alloc::{AllocError, Global};
use store::Store;

/// How the files are opened, as those of any database of tables.
const SETUP: Setup = Setup {
    kind: StoreKind::Tables,
    page_size: 4096,
    limit: 1000,
};

/// Checks the database of this path, and writes one line that tells how many pages and trees it has, and how many pages are free.
///
/// The files are named and opened as a store of tables, which settles them. A new database then has one page, and with it one tree.
/// What is written where they aren't opened, and the status, are those of [`Status`].
pub fn check_on_disk<D: Disk, K: Sink, W: Salts>(
    alloc: Global,
    path: &[u8],
    disk: &mut D,
    out: &mut K,
    salts: &mut W,
) -> Status
    requires unattached { D.attached disk.old ≡ false }
    ensures checks { ChecksOnDisk D.DiskTells K.Sink path.now result disk.old out.old disk.new out.new }
    ensures loans { K.loans out.new ≡ K.loans out.old }
{
    match disk.attach(path) {
        Ok(()) => {
            let (status, _) = check_attached(alloc, disk, out, salts);
            status
        }
        Err(Failed) => say_last(out, b"disk failed\n", Status::DiskFailed),
    }
}

/// Opens the store of a disk whose files are named, writes what was counted, and gives the disk back.
#[tactic(auto, unfolding(page_spec::specs::Header::is_page_size))]
fn check_attached<D: Disk, K: Sink, W: Salts + Drop>(
    alloc: Global,
    disk: D,
    out: &mut K,
    salts: W,
) -> (Status, D)
    requires { D.attached disk ≡ true }
    ensures checks { ChecksOpened D.DiskTells K.Sink page_size_checked result.0 disk out.old result.1 out.new }
    ensures names { (names : List ℕ) × (others : List ℕ) × (D.loans result.1 ++ names ≡ D.loans disk ++ others) }
    ensures loans { K.loans out.new ≡ K.loans out.old }
{
    // What its pages mean is never asked.
    match Store::<D, W, Raw>::open_checked(alloc, disk, salts, SETUP) {
        Ok((store, count)) => {
            let (disk, _) = store.close();
            (say_count(alloc, count, out), disk)
        }
        Err((why, disk)) => (say_why(alloc, &why, out), disk),
    }
}

/// Writes the line that tells what was counted.
fn say_count<K: Sink>(alloc: Global, count: Count, out: &mut K) -> Status
    ensures says { SaysCount K.Sink count result out.old out.new }
    ensures loans { K.loans out.new ≡ K.loans out.old }
{
    let mut line = Vec::new(alloc);
    match append_count(count, &mut line) {
        Ok(()) => say_last(out, &line, Status::Done),
        Err(_) => Status::NoMemory,
    }
}

/// Appends the line that tells what was counted. The error is want of memory.
fn append_count(count: Count, to: &mut Vec<u8>) -> Result<(), AllocError>
    ensures { OnOk result (to.new.items ≡ to.old.items ++ count_line count) }
{
    append_number(b"pages ", count.pages, to)?;
    append_number(b" trees ", count.trees, to)?;
    append_number(b" free ", count.free, to)?;
    to.extend_from_slice(b"\n")
}

/// Appends a word, with the blanks round it, and a number. The error is want of memory.
fn append_number(word: &[u8], number: u32, to: &mut Vec<u8>) -> Result<(), AllocError>
    ensures { OnOk result (to.new.items ≡ to.old.items ++ (word.now ++ decimal number)) }
{
    let mut digits = itoa::Buffer::new();
    to.extend_from_slice(word)?;
    to.extend_from_slice(digits.format(number).as_bytes())
}
