// A disk in memory.
//
// A call is decided by the plan and noted before it does anything. One that finds no memory afterwards is noted anew.
ghost use Rattle.std.specs.Prelude.{◌≡◌, ℕ, ◌+◌, ◌≤◌, ◌<◌, ◌⊎◌, ◌++◌, List, [], ◌∷◌, Some, None, true, false, length, take, drop, is_ok, IsErr, IsTrue, IfOk, OnOk, OnErr};
ghost use Rattle.disk_face.specs.Faults.{Counts, Rose, one_more};
ghost use Rattle.disk_face.specs.Files.{content};
ghost use Rattle.disk_face.specs.Steps.{reads, further};
ghost use Rattle.disk_face.specs.Stays.{OnlyNames, OnlyReads, OnlyWrites};
ghost use Rattle.disk_face.specs.Told.{IsInside, Refuses};
ghost use Rattle.disk_face.specs.declared.step.Step.TheVariants.{Wrote, Synced};
ghost use Rattle.disk_mem.specs.Plan.{fails};
ghost use Rattle.disk_mem.specs.Disk.{DiskState, passed, HasFailed};
ghost use Rattle.disk_mem.specs.Note.{with_call};
ghost use Rattle.disk_mem.specs.Store.{fresh};
ghost use Rattle.disk_mem.specs.Crash.{crashed};
ghost use Rattle.disk_face.specs.Image.{MayLeave};

use crate::note::{note, note_again};
use crate::plan::Plan;
use crate::store::Store;
use crate::{Call, Fail, Made, fuse};
use disk_face::{Disk, DiskTells, Failed, File};
use std::alloc::{AllocError, Global};
use std::marker::Model;

/// A disk in memory, which can be made to fail at a call, to stop for good, and to crash. It keeps a record of all calls.
///
/// A call that finds no memory fails too. A write that fails changes nothing that a read gives, but a crash may leave any
/// bytes in its range, unless it failed for want of memory.
#[derive(Debug, Drop)]
pub struct MemDisk {
    store: Store,
    attached: bool,
    hot: bool,
    plan: Plan,
    made: Vec<Made>,
    faults: u64,
}

impl Model for MemDisk {
    ghost use Rattle.disk_mem.specs.Disk.{DiskState};

    ghost Value = { DiskState };

    ghost view = { λ disk. record {
      told = disk.store;
      attached = disk.attached;
      hot = disk.hot;
      plan = disk.plan;
      made = disk.made.items;
      faults = disk.faults;
    } };
}

impl MemDisk {
    /// A disk with these contents, all of them on the medium, and no hot journal. The calls named by `failing` will fail.
    pub fn new(
        alloc: Global,
        main: Vec<u8>,
        log1: Vec<u8>,
        log2: Vec<u8>,
        failing: Vec<Fail>,
    ) -> MemDisk
        ensures { result ≡ record {
          told = fresh main.items log1.items log2.items;
          attached = false;
          hot = false;
          plan = record { failing = failing.items; passes = None; calls = 0 };
          made = [];
          faults = 0;
        } }
    {
        MemDisk {
            store: Store::new(alloc, main, log1, log2),
            attached: false,
            hot: false,
            plan: Plan::new(failing),
            made: Vec::new(alloc),
            faults: 0,
        }
    }

    /// Says whether there is to be a hot journal.
    pub fn set_journal(&mut self, hot: bool)
        ensures { self.new ≡ record self.old { hot = hot } }
    {
        self.hot = hot;
    }

    /// Lets so many further calls pass. All later ones fail.
    pub fn stop_after(&mut self, calls: u64)
        ensures { self.new ≡ record self.old { plan = record self.old.plan { passes = Some calls } } }
    {
        self.plan.stop_after(calls);
    }

    /// How many calls there have been, failed ones too. The count stays once it is 2^64-1.
    pub fn calls(&self) -> u64
        ensures { result ≡ self.now.plan.calls }
    {
        self.plan.calls()
    }

    /// The calls that were made, the oldest first: each but those that found no memory to be noted, which failed.
    pub fn made(&self) -> &[Made]
        ensures { result.now ≡ self.now.made }
    {
        self.made.as_slice()
    }

    /// The bytes that reads of the file give.
    pub fn file(&self, file: File) -> &[u8]
        ensures { result.now ≡ content (reads self.now.told) file }
    {
        self.store.bytes(file)
    }

    /// The disk after a crash at this moment, with no call that fails and its files still to be named. Where a crash may
    /// leave any byte the next of `pick` is taken, in the order of main file, first log and second log, and by place; where
    /// `pick` is used up the byte that a read gives stands. The error is want of memory.
    pub fn crash(&self, pick: &[u8]) -> Result<MemDisk, AllocError>
        ensures image { IfOk result (λ disk. disk ≡ record {
          told = crashed self.now.told pick.now;
          attached = false;
          hot = self.now.hot;
          plan = record { failing = []; passes = None; calls = 0 };
          made = [];
          faults = 0;
        }) }
        ensures allowed { IfOk result (λ disk. MayLeave [] self.now.told (reads disk.told)) }
    {
        Ok(MemDisk {
            store: self.store.crash(pick)?,
            attached: false,
            hot: self.hot,
            plan: Plan::new(Vec::new(self.store.alloc())),
            made: Vec::new(self.store.alloc()),
            faults: 0,
        })
    }

    /// Begins a call, which fails where the plan says so, or where there is no memory to note it.
    fn begin(&mut self, file: File, call: Call) -> Result<(), Failed>
        ensures planned { IsTrue (fails file call self.old.plan) → IsErr result }
        ensures passed { OnOk result (self.new ≡ passed file call self.old) }
        ensures failed { OnErr result (HasFailed file call self.old self.new) }
        ensures cause { OnErr result (IsTrue (fails file call self.old.plan) ⊎ (self.new.made ≡ self.old.made)) }
        ensures told { OnErr result (self.new.told ≡ self.old.told) }
        ensures rose { OnErr result (Rose self.old.faults self.new.faults) }
    {
        let failed = self.plan.call(file, call);
        let noted = note(&mut self.made, Made { file, call, failed });
        if failed || noted.is_err() {
            fuse::count_fault(&mut self.faults);
            return Err(Failed);
        }
        Ok(())
    }

    /// Notes that the call that began, and was noted as one that goes well, found no memory.
    fn fail(&mut self, file: File, call: Call) -> Failed
        requires { 0 < length self.old.made }
        ensures failed { (before : DiskState) → self.old ≡ passed file call before → HasFailed file call before self.new }
        ensures told { self.new.told ≡ self.old.told }
        ensures rose { Rose self.old.faults self.new.faults }
    {
        note_again(
            &mut self.made,
            Made {
                file,
                call,
                failed: true,
            },
        );
        fuse::count_fault(&mut self.faults);
        Failed
    }
}

impl DiskTells for MemDisk {
    ghost told = { λ disk. Some disk.told };

    ghost attached = { λ disk. disk.attached };

    ghost named = { λ disk. None };

    ghost journal_answer = { λ disk. Some disk.hot };

    ghost faults = { λ disk. disk.faults };

    ghost loans = { λ disk. [] };
}

impl Disk for MemDisk {
    fn attach(&mut self, _path: &[u8]) -> Result<(), Failed>
        requires { self.old.attached ≡ false }
        ensures planned { IsTrue (fails File.Main Call.Attach self.old.plan) → IsErr result }
        ensures done { OnOk result (self.new ≡ record (passed File.Main Call.Attach self.old) { attached = true }) }
        ensures failed { OnErr result (HasFailed File.Main Call.Attach self.old self.new) }
        ensures cause { OnErr result (IsTrue (fails File.Main Call.Attach self.old.plan) ⊎ (self.new.made ≡ self.old.made)) }
        ensures attached { self.new.attached ≡ is_ok result }
        ensures stays { OnlyNames ⟦<MemDisk as DiskTells>⟧ self.old self.new }
        ensures faults { Counts (is_ok result) self.old.faults self.new.faults }
    {
        self.begin(File::Main, Call::Attach)?;
        self.attached = true;
        Ok(())
    }

    fn journal(&mut self) -> Result<bool, Failed>
        ensures planned { IsTrue (fails File.Main Call.Journal self.old.plan) → IsErr result }
        ensures answer { IfOk result (λ hot. hot ≡ self.old.hot) }
        ensures done { OnOk result (self.new ≡ passed File.Main Call.Journal self.old) }
        ensures failed { OnErr result (HasFailed File.Main Call.Journal self.old self.new) }
        ensures cause { OnErr result (IsTrue (fails File.Main Call.Journal self.old.plan) ⊎ (self.new.made ≡ self.old.made)) }
        ensures stays { OnlyReads ⟦<MemDisk as DiskTells>⟧ self.old self.new }
        ensures faults { Counts (is_ok result) self.old.faults self.new.faults }
    {
        self.begin(File::Main, Call::Journal)?;
        Ok(self.hot)
    }

    fn size(&mut self, file: File) -> Result<u64, Failed>
        ensures planned { IsTrue (fails file Call.Size self.old.plan) → IsErr result }
        ensures size { IfOk result (λ size. size ≡ length (content (reads self.old.told) file)) }
        ensures done { OnOk result (self.new ≡ passed file Call.Size self.old) }
        ensures failed { OnErr result (HasFailed file Call.Size self.old self.new) }
        ensures cause { OnErr result (IsTrue (fails file Call.Size self.old.plan) ⊎ (self.new.made ≡ self.old.made)) }
        ensures stays { OnlyReads ⟦<MemDisk as DiskTells>⟧ self.old self.new }
        ensures faults { Counts (is_ok result) self.old.faults self.new.faults }
    {
        self.begin(file, Call::Size)?;
        Ok(self.store.bytes(file).len() as u64)
    }

    fn read_at(&mut self, file: File, at: u64, buf: &mut [u8]) -> Result<(), Failed>
        requires { at + length buf.old ≤ length (content (reads self.old.told) file) }
        ensures planned { IsTrue (fails file Call.Read self.old.plan) → IsErr result }
        ensures bytes { OnOk result (buf.new ≡ take (length buf.new) (drop at (content (reads self.old.told) file))) }
        ensures done { OnOk result (self.new ≡ passed file Call.Read self.old) }
        ensures failed { OnErr result (HasFailed file Call.Read self.old self.new) }
        ensures cause { OnErr result (IsTrue (fails file Call.Read self.old.plan) ⊎ (self.new.made ≡ self.old.made)) }
        ensures stays { OnlyReads ⟦<MemDisk as DiskTells>⟧ self.old self.new }
        ensures faults { Counts (is_ok result) self.old.faults self.new.faults }
    {
        self.begin(file, Call::Read)?;
        let at = at as usize;
        buf.copy_from_slice(&self.store.bytes(file)[at..at + buf.len()]);
        Ok(())
    }

    fn write_at(&mut self, file: File, at: u64, piece: &[u8]) -> Result<(), Failed>
        requires { IsInside (Some self.old.told) file at 0 }
        ensures planned { IsTrue (fails file Call.Write self.old.plan) → IsErr result }
        ensures done { OnOk result (self.new ≡ record (passed file Call.Write self.old) { told = further (Wrote (record { file = file; at = at; bytes = piece.now })) self.old.told }) }
        ensures failed { OnErr result (HasFailed file Call.Write self.old self.new) }
        ensures refused { OnErr result (Refuses (record { file = file; at = at; bytes = piece.now }) (Some self.old.told) (Some self.new.told)) }
        ensures reads { OnErr result (reads self.new.told ≡ reads self.old.told) }
        ensures stays { OnlyWrites ⟦<MemDisk as DiskTells>⟧ self.old self.new }
        ensures faults { Counts (is_ok result) self.old.faults self.new.faults }
    {
        if self.begin(file, Call::Write).is_err() {
            self.store.refuse(file, at, piece);
            return Err(Failed);
        }
        if self.store.write(file, at, piece).is_err() {
            return Err(self.fail(file, Call::Write));
        }
        Ok(())
    }

    fn sync(&mut self, file: File) -> Result<(), Failed>
        ensures planned { IsTrue (fails file Call.Sync self.old.plan) → IsErr result }
        ensures done { OnOk result (self.new ≡ record (passed file Call.Sync self.old) { told = further (Synced file) self.old.told }) }
        ensures failed { OnErr result (HasFailed file Call.Sync self.old self.new) }
        ensures unsynced { OnErr result (self.new.told ≡ self.old.told) }
        ensures stays { OnlyWrites ⟦<MemDisk as DiskTells>⟧ self.old self.new }
        ensures faults { Counts (is_ok result) self.old.faults self.new.faults }
    {
        self.begin(file, Call::Sync)?;
        if self.store.sync(file).is_err() {
            return Err(self.fail(file, Call::Sync));
        }
        Ok(())
    }
}
