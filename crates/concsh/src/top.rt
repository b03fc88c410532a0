// The whole program, over any disk, source, sink and random words.
ghost use Rattle.std.specs.Prelude.{◌≡◌, None, false, IfSome};
ghost use Rattle.disk_face.specs.Faults.{Rose};
ghost use Rattle.page_runs.specs.declared.status.Status.TheVariants as status;
ghost use Rattle.page_runs.specs.Outcome.{words_refused, SaysLast};
ghost use Rattle.page_runs.specs.Status.{EndsWith};
ghost use Rattle.words.specs.Seen.{pages_asked};
ghost use Rattle.words.specs.Words.{AreWithinLimits, request_of};
ghost use Rattle.concsh.specs.Program.{EndsByItself, NameFiles, Runs, RunsPages};

use disk_checks::check_on_disk;
use disk_face::{Disk, Salts, Sink, Source, Word};
use disk_runs::run_on_disk;
use page_runs::{Status, run_in_memory, say_last};
use recover::{Setup, StoreKind};
use std::alloc::Global;
use words::{Pages, Request, read_words};

/// Runs what the words ask for, and gives the number of the status that the program ends with.
///
/// The words are those of the crate `words`: `pages` runs page lines over 16 pages of zeros in memory, or over the files of a path. Each
/// line of the script is run and answered before the next one is taken. `check` checks the files of a path, and takes nothing of the source.
/// The statuses are those of [`Status`].
pub fn top<D: Disk, S: Source, K: Sink, W: Salts>(
    alloc: Global,
    words: &[Word],
    disk: &mut D,
    src: &mut S,
    out: &mut K,
    salts: &mut W,
) -> u8
    requires unattached { D.attached disk.old ≡ false }

    // What is asked for was done: what each status says of the run and of what was written, what its lines did to the files and what a
    // crash may leave of them at each moment, and which faults it tells of; of a check, what was counted.
    ensures run { IfSome (request_of words.now) (λ asked.
        EndsWith result (λ ended. Runs D.DiskTells S.Source K.Sink asked ended disk.old src.old out.old disk.new src.new out.new)) }

    // Other words are refused, and these aren't.
    ensures refused { request_of words.now ≡ None → EndsWith result (λ ended. SaysLast K.Sink words_refused status.WordsRefused ended out.old out.new) }
    ensures untaken { request_of words.now ≡ None → src.new ≡ src.old }

    // Where nothing outside failed, the status is the script's, or memory ran out, or the database was refused; a check that wasn't refused ends well.
    ensures complete { IfSome (request_of words.now) (λ asked. ¬ Rose (D.faults disk.old) (D.faults disk.new)
        → ¬ Rose (S.faults src.old) (S.faults src.new) → ¬ Rose (K.faults out.old) (K.faults out.new)
        → EndsByItself asked (S.left src.old) result) }

    // Without a database the disk and the random words are left alone.
    ensures untouched { ¬ NameFiles (request_of words.now) → (disk.new ≡ disk.old) × (salts.new ≡ salts.old) }
    ensures loans { (S.loans src.new ≡ S.loans src.old) × (K.loans out.new ≡ K.loans out.old) }
{
    run(alloc, words, disk, src, out, salts).code()
}

/// Runs what the words ask for.
fn run<D: Disk, S: Source, K: Sink, W: Salts>(
    alloc: Global,
    words: &[Word],
    disk: &mut D,
    src: &mut S,
    out: &mut K,
    salts: &mut W,
) -> Status
    requires unattached { D.attached disk.old ≡ false }
    ensures run { IfSome (request_of words.now) (λ asked. Runs D.DiskTells S.Source K.Sink asked result disk.old src.old out.old disk.new src.new out.new) }
    ensures refused { request_of words.now ≡ None → SaysLast K.Sink words_refused status.WordsRefused result out.old out.new }
    ensures untaken { request_of words.now ≡ None → src.new ≡ src.old }
    ensures untouched { ¬ NameFiles (request_of words.now) → (disk.new ≡ disk.old) × (salts.new ≡ salts.old) }
    ensures loans { (S.loans src.new ≡ S.loans src.old) × (K.loans out.new ≡ K.loans out.old) }
{
    match read_words(words) {
        None => say_last(out, b"words refused\n", Status::WordsRefused),
        Some(Request::Pages(pages)) => run_lines(alloc, pages, disk, src, out, salts),
        Some(Request::Check { path }) => check_on_disk(alloc, path, disk, out, salts),
    }
}

/// Runs page lines on what is asked for.
fn run_lines<D: Disk, S: Source, K: Sink, W: Salts>(
    alloc: Global,
    asked: Pages,
    disk: &mut D,
    src: &mut S,
    out: &mut K,
    salts: &mut W,
) -> Status
    requires unattached { D.attached disk.old ≡ false }
    requires limits { AreWithinLimits (pages_asked asked) }
    ensures run { RunsPages D.DiskTells S.Source K.Sink (pages_asked asked.entry).path (pages_asked asked.entry).page_size (pages_asked asked.entry).limit result
        disk.old src.old out.old disk.new src.new out.new }
    ensures untouched { (pages_asked asked.entry).path ≡ None → (disk.new ≡ disk.old) × (salts.new ≡ salts.old) }
    ensures loans { (S.loans src.new ≡ S.loans src.old) × (K.loans out.new ≡ K.loans out.old) }
{
    let Some(path) = asked.path else {
        return run_in_memory(alloc, src, out);
    };
    let setup = Setup {
        kind: StoreKind::Pages,
        page_size: asked.page_size,
        limit: asked.limit,
    };
    run_on_disk(alloc, path, setup, disk, src, out, salts)
}
