// A run of page lines over a store on a disk: the files are named, the store is opened, and the lines run over it.
ghost use Rattle.std.specs.Prelude.{◌≡◌, ◌≤◌, ◌++◌, [], List, ℕ, true, false, IsTrue, OnOk};
ghost use Rattle.page_spec.specs.Header.{is_page_size};
ghost use Rattle.recover.specs.declared.setup.StoreKind.TheVariants.{Pages};
ghost use Rattle.store.specs.Solo.{store_of};
ghost use Rattle.page_runs.specs.Outcome.{RunEnds};
ghost use Rattle.disk_runs.specs.OnDisk.{RunsOnDisk, RunsOpened, SaysReason, SaysWhy, database_refused};
ghost use Rattle.disk_runs.specs.Opened.{IsRunOf};

use disk_face::{Disk, Failed, Salts, Sink, Source};
use page_face::{EngineTells, Means};
use page_lines::Raw;
use page_runs::{Sessions, Status, run_pages, say_last};
use recover::Setup;
use std::alloc::{AllocError, Global};
use store::{OpenFault, Solo, append_reason};

/// Runs the lines that the source gives over the page store of this path, each of which is answered before the next one is taken.
///
/// The files are named and the store is opened first; nothing is taken from the source before that. What is written, and the status, are
/// those of [`Status`]; what the lines left open is given up at the end.
pub fn run_on_disk<D: Disk, S: Source, K: Sink, W: Salts>(
    alloc: Global,
    path: &[u8],
    setup: Setup,
    disk: &mut D,
    src: &mut S,
    out: &mut K,
    salts: &mut W,
) -> Status
    requires unattached { D.attached disk.old ≡ false }
    requires page_size { IsTrue (is_page_size setup.page_size) }
    requires limit { 1 ≤ setup.limit }
    requires kind { setup.kind ≡ Pages }
    ensures run { RunsOnDisk D.DiskTells S.Source K.Sink path.now setup.page_size setup.limit result disk.old src.old out.old disk.new src.new out.new }
    ensures loans { (S.loans src.new ≡ S.loans src.old) × (K.loans out.new ≡ K.loans out.old) }
{
    match disk.attach(path) {
        Ok(()) => {
            let (status, _) = run_attached(alloc, setup, disk, src, out, salts);
            status
        }
        Err(Failed) => say_last(out, b"disk failed\n", Status::DiskFailed),
    }
}

/// Opens the store of a disk whose files are named, runs the lines over it, and gives the disk back.
fn run_attached<D: Disk, S: Source, K: Sink, W: Salts + Drop>(
    alloc: Global,
    setup: Setup,
    disk: D,
    src: &mut S,
    out: &mut K,
    salts: W,
) -> (Status, D)
    requires attached { D.attached disk ≡ true }
    requires page_size { IsTrue (is_page_size setup.page_size) }
    requires limit { 1 ≤ setup.limit }
    requires kind { setup.kind ≡ Pages }
    ensures run { RunsOpened D.DiskTells S.Source K.Sink setup.page_size setup.limit result.0 disk src.old out.old result.1 src.new out.new }
    ensures names { (names : List ℕ) × (others : List ℕ) × (D.loans result.1 ++ names ≡ D.loans disk ++ others) }
    ensures loans { (S.loans src.new ≡ S.loans src.old) × (K.loans out.new ≡ K.loans out.old) }
{
    match Solo::open(alloc, disk, salts, setup) {
        Ok(solo) => run_store(alloc, solo, src, out),
        Err((why, disk)) => (say_why(alloc, &why, out), disk),
    }
}

/// Runs the lines over a store that was just opened, and takes it apart again.
fn run_store<D: Disk, S: Source, K: Sink, W: Salts + Drop>(
    alloc: Global,
    solo: Solo<D, W, Raw>,
    src: &mut S,
    out: &mut K,
) -> (Status, D)
    requires live { ⟦<Solo<D, W, Raw> as EngineTells<Raw>>⟧.live solo [] }
    requires size { (⟦<Solo<D, W, Raw> as EngineTells<Raw>>⟧.state solo).size ≡ 16 }
    ensures run { RunEnds S.Source K.Sink (IsRunOf D.DiskTells W.loans ⟦<Raw as Means>⟧ solo result.1) result.0 src.old out.old src.new out.new }
    ensures names { (names : List ℕ) × (D.loans result.1 ++ names ≡ D.loans (store_of solo).disk ++ W.loans (store_of solo).salts) }
    ensures loans { (S.loans src.new ≡ S.loans src.old) × (K.loans out.new ≡ K.loans out.old) }
{
    let mut sessions = Sessions::new(alloc, solo);
    let status = run_pages(alloc, &mut sessions, src, out);
    let (disk, _) = sessions.into_engine().into_store().close();
    (status, disk)
}

/// Writes the last line of a program whose database wasn't opened.
pub fn say_why<K: Sink>(alloc: Global, why: &OpenFault, out: &mut K) -> Status
    ensures says { SaysWhy K.Sink why.now result out.old out.new }
    ensures loans { K.loans out.new ≡ K.loans out.old }
{
    match why {
        OpenFault::Disk => say_last(out, b"disk failed\n", Status::DiskFailed),
        OpenFault::Memory => Status::NoMemory,
        OpenFault::Look(_) | OpenFault::NotPages { .. } | OpenFault::Check(_) => {
            say_reason(alloc, why, out)
        }
    }
}

/// Writes the last line that tells why a database isn't opened.
fn say_reason<K: Sink>(alloc: Global, why: &OpenFault, out: &mut K) -> Status
    ensures says { SaysReason K.Sink why.now result out.old out.new }
    ensures loans { K.loans out.new ≡ K.loans out.old }
{
    let mut line = Vec::new(alloc);
    match append_refusal(why, &mut line) {
        Ok(()) => say_last(out, &line, Status::DatabaseRefused),
        Err(_) => Status::NoMemory,
    }
}

/// Appends the last line that tells why a database isn't opened. The error is want of memory.
fn append_refusal(why: &OpenFault, to: &mut Vec<u8>) -> Result<(), AllocError>
    ensures { OnOk result (to.new.items ≡ to.old.items ++ database_refused why.now) }
{
    to.extend_from_slice(b"database refused: ")?;
    append_reason(why, to)?;
    to.extend_from_slice(b"\n")
}
