// What was seen of a database of tables is checked, before anything is written.
ghost use Rattle.std.specs.Prelude.{◌≡◌, ◌<◌, ℕ, true, false, length, IfOk, IfErr, IfSome, IsTrue};
ghost use Rattle.disk_face.specs.Stays.{OnlyReads};
ghost use Rattle.disk_face.specs.Steps.{reads};
ghost use Rattle.page_spec.specs.Header.{is_page_size};
ghost use Rattle.recover.specs.AsLooked.{IsAsLooked};
ghost use Rattle.recover.specs.Seeing.{HasSeen, IsSeen, IsWholeSeen, files_told, is_new_in};
ghost use Rattle.recover.specs.declared.setup.StoreKind.TheVariants.{Tables};
ghost use Rattle.tree_check.specs.Checking.{IsCounted};
ghost use Rattle.store.specs.Opening.{AreTables, HasTables, IsCountOf, MayHold, MayHoldSeen, RefusesOpen, RefusesTables, database_in};

use crate::open_fault::{OpenFault, of_check, of_look};
use check_spec::{CheckFault, Count};
use disk_face::Disk;
use recover::{Recovered, Seen, Setup, look};
use std::alloc::Global;
use tree_check::check_all;

/// The most bytes that a database has.
const DATABASE_LIMIT: u64 = 1 << 30;

/// Whether the database's file can hold what was seen: page 1 names its pages, once the file has them all, and they are no more than a database has.
fn may_hold(seen: &Seen) -> bool
    requires few { length seen.now.places < 4294967295 }
    ensures held { result ≡ true → MayHoldSeen seen.now }
    ensures not { result ≡ false → MayHoldSeen seen.now → ⊥ }
{
    let pages = seen.pages();
    if pages == 0 || seen.named() != pages {
        return false;
    }
    u64::from(pages) * u64::from(seen.page_size()) <= DATABASE_LIMIT
}

/// Checks a database that is there. A read that failed is told as a failed disk, whatever the check makes of it.
fn check_seen<D: Disk>(alloc: Global, disk: &mut D, seen: &Seen) -> Result<Count, OpenFault>
    requires looked { IsAsLooked D.DiskTells disk.old seen.now }
    ensures counted { IfOk result (λ count. IfSome (D.told disk.old) (λ told. IsCounted (database_in (reads told)) count)) }
    ensures pages { IfOk result (λ count. count.pages ≡ length seen.now.places) }
    ensures holds { IfOk result (λ count. MayHoldSeen seen.now) }
    ensures refused { IfErr result (λ why. RefusesTables (D.faults disk.old) (D.faults disk.new) (D.told disk.old) why) }
    ensures stays { OnlyReads D.DiskTells disk.old disk.new }
    ensures faults { IfOk result (λ count. D.faults disk.new ≡ D.faults disk.old) }
{
    let mut pages = Recovered {
        seen,
        disk,
        failed: false,
    };
    let checked = check_all(alloc, &mut pages);
    if pages.failed {
        return Err(OpenFault::Disk);
    }
    match checked {
        Ok(count) => {
            if may_hold(seen) {
                Ok(Count {
                    pages: seen.pages(),
                    trees: count.trees,
                    free: count.free,
                })
            } else {
                Err(OpenFault::Check(CheckFault::Page { page: 1, at: 28 }))
            }
        }
        Err(why) => Err(of_check(why)),
    }
}

/// Judges what was seen as a database of tables. A new one has one page, which is its tree.
fn judge_tables<D: Disk>(alloc: Global, disk: &mut D, seen: &Seen) -> Result<Count, OpenFault>
    requires attached { D.attached disk.old ≡ true }
    requires whole { IsWholeSeen seen.now }
    requires seen { (new_size : ℕ) × IfSome (D.told disk.old) (λ told. IsSeen new_size (reads told) seen.now) }
    ensures counted { IfOk result (λ count. IfSome (D.told disk.old) (λ told. IsCountOf (reads told) count)) }
    ensures map { IfOk result (λ count. HasTables seen.now count.pages) }
    ensures holds { IfOk result (λ count. IfSome (D.told disk.old) (λ told. is_new_in (reads told) ≡ false → MayHold (reads told))) }
    ensures refused { IfErr result (λ why. RefusesTables (D.faults disk.old) (D.faults disk.new) (D.told disk.old) why) }
    ensures stays { OnlyReads D.DiskTells disk.old disk.new }
    ensures faults { IfOk result (λ count. D.faults disk.new ≡ D.faults disk.old) }
{
    if seen.is_new() {
        return Ok(Count {
            pages: 1,
            trees: 1,
            free: 0,
        });
    }
    match check_seen(alloc, disk, seen) {
        Ok(count) => Ok(count),
        Err(why) => Err(why),
    }
}

/// Looks at a database of tables, and checks it. It only reads.
pub(crate) fn look_tables<D: Disk>(
    alloc: Global,
    disk: &mut D,
    setup: &Setup,
) -> Result<(Seen, Count), OpenFault>
    requires attached { D.attached disk.old ≡ true }
    requires page_size { IsTrue (is_page_size setup.now.page_size) }
    ensures seen { IfOk result (λ found. HasSeen setup.now.page_size (files_told (D.told disk.old)) (D.journal_answer disk.old) found.0) }
    ensures map { IfOk result (λ found. HasTables found.0 found.1.pages) }
    ensures counted { IfOk result (λ found. IfSome (D.told disk.old) (λ told. IsCountOf (reads told) found.1)) }
    ensures opened { IfOk result (λ found. IfSome (D.told disk.old) (λ told. AreTables (D.journal_answer disk.old) (reads told))) }
    ensures refused { IfErr result (λ why. RefusesOpen Tables (D.faults disk.old) (D.faults disk.new) (D.told disk.old) (D.told disk.new) (D.journal_answer disk.old) why) }
    ensures stays { OnlyReads D.DiskTells disk.old disk.new }
    ensures faults { IfOk result (λ found. D.faults disk.new ≡ D.faults disk.old) }
{
    match look(alloc, disk, setup) {
        Ok(seen) => match judge_tables(alloc, disk, &seen) {
            Ok(count) => Ok((seen, count)),
            Err(why) => Err(why),
        },
        Err(why) => Err(of_look(why)),
    }
}
