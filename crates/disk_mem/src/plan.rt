// Which calls of a disk in memory fail.
ghost use Rattle.std.specs.Prelude.{◌≡◌, [], None, map};
ghost use Rattle.std.specs.List.{list_any};
ghost use Rattle.disk_face.specs.Image.{same_file};
ghost use Rattle.disk_mem.specs.Plan.{same_call, names, is_due, later, is_over, fails, called};

use crate::fuse;
use disk_face::File;
use std::marker::Model;

/// A kind of call of a disk.
#[derive(Clone, Copy, Debug, PartialEq, Eq)]
pub enum Call {
    /// `attach`, named on [`File::Main`].
    Attach,
    /// `journal`, named on [`File::Main`].
    Journal,
    /// `size`.
    Size,
    /// `read_at`.
    Read,
    /// `write_at`.
    Write,
    /// `sync`.
    Sync,
}

/// A call that is to fail: the one numbered `nth`, from 1, among the calls of that kind on that file.
#[derive(Clone, Copy, Debug, PartialEq, Eq)]
pub struct Fail {
    pub file: File,
    pub call: Call,
    pub nth: u64,
}

/// A call that was made.
#[derive(Clone, Copy, Debug, PartialEq, Eq)]
pub struct Made {
    pub file: File,
    pub call: Call,
    pub failed: bool,
}

/// The calls of a disk that are to fail, and how many there have been.
#[derive(Debug, Drop)]
pub(crate) struct Plan {
    failing: Vec<Fail>,
    passes: Option<u64>,
    calls: u64,
}

impl Model for Plan {
    ghost use Rattle.disk_mem.specs.Plan.{PlanState};

    ghost Value = { PlanState };

    ghost view = { λ plan. record { failing = plan.failing.items; passes = plan.passes; calls = plan.calls } };
}

impl Plan {
    pub(crate) fn new(failing: Vec<Fail>) -> Plan
        ensures { result ≡ record { failing = failing.items; passes = None; calls = 0 } }
    {
        Plan {
            failing,
            passes: None,
            calls: 0,
        }
    }

    /// Lets so many further calls pass.
    pub(crate) fn stop_after(&mut self, calls: u64)
        ensures { self.new ≡ record self.old { passes = Some calls } }
    {
        self.passes = Some(calls);
    }

    /// How many calls there have been. The count stays once it is 2^64-1.
    pub(crate) fn calls(&self) -> u64
        ensures { result ≡ self.now.calls }
    {
        self.calls
    }

    /// Counts a call, and says whether it fails.
    pub(crate) fn call(&mut self, file: File, call: Call) -> bool
        ensures fails { result ≡ fails file call self.old }
        ensures after { self.new ≡ called file call self.old }
    {
        let due = any_due(&self.failing, file, call);
        move_on(&mut self.failing, file, call);
        let over = self.passes == Some(0);
        fuse::burn(&mut self.passes);
        self.calls = self.calls.saturating_add(1);
        due || over
    }
}

fn any_due(failing: &[Fail], file: File, call: Call) -> bool
    ensures { result ≡ list_any (is_due file call) failing.now }
{
    failing.iter().any(|fail| is_due(fail, file, call))
}

fn is_due(fail: &Fail, file: File, call: Call) -> bool
    ensures { result ≡ is_due file call fail.now }
{
    names(fail, file, call) && fail.nth == 1
}

fn names(fail: &Fail, file: File, call: Call) -> bool
    ensures { result ≡ names file call fail.now }
{
    fail.file == file && fail.call == call
}

fn later(fail: Fail, file: File, call: Call) -> Fail
    ensures { result ≡ later file call fail }
{
    let nth = if names(&fail, file, call) {
        fail.nth.saturating_sub(1)
    } else {
        fail.nth
    };
    Fail { nth, ..fail }
}

fn move_on(failing: &mut [Fail], file: File, call: Call)
    ensures { failing.new ≡ map (later file call) failing.old }
{
    for i in 0..failing.len() {
        failing[i] = later(failing[i], file, call);
    }
}
