// An engine that keeps logs, to which others commit inside the calls of its owner, and on which a transaction may not always begin: it
// shows that `EngineTells` and `Engine` can be met so, by an engine that stands over another one.
//
// Its invariant (`SharedLive`): the pins that hold, and that of a transaction that waits, hold in the engine in memory; what waits fits;
// `commits` is the length of the history; the commits of others are among it, and the log holds a part of it.
ghost use Rattle.std.specs.Prelude.{◌≡◌, ℕ, ◌<◌, true, false, vec_len, List, [], ◌∷◌, ◌++◌, MatchOption, Option, IfSome, unwrap_or};
ghost use Rattle.std.specs.Vec.{vec_capacity};
ghost use Rattle.page_spec.specs.PageMap.{PageMap};
ghost use Rattle.engine_spec.specs.declared.pins.Pin.{Pin as PinValue};
ghost use Rattle.page_face.specs.Pins.{IsLive, KeepsPins};
ghost use Rattle.page_face.specs.Prepared.{IsFit, IsGood};
ghost use Rattle.page_face.specs.Calls.{HasCommitted, IsGoodForOthers};
ghost use Rattle.memory_engine.specs.Plain.{PlainLive, PlainRuns, state_of};
ghost use Rattle.witnesses.specs.Shared.{number_in, plain_map, SharedLive, SharedRuns, OthersCame, SomeCommitted, TheirsCame};

use disk_face::Failed;
use memory_engine::Plain;
use page_face::{
    Ckpt, CommitFault, Engine, EngineTells, FetchFault, Lock, Logs, Means, Pin, Prepared, Receipt,
    Who,
};
use std::alloc::Global;

/// A transaction of others that waits to be committed.
#[derive(Drop)]
pub struct Waiting<M> {
    pin: Pin,
    prepared: Prepared<M>,
    who: Who,
}

/// One owner's view of an engine in memory to which others commit. A transaction that was handed over to others is committed at the
/// beginning of the owner's next call but `end`, where it can be. The owner has one transaction at a time, so beginning is barred
/// from `begin` on, until a transaction ends or is handed over.
///
/// It tells of log 1, which holds the commits since the owner's last call began; the other is done. Its count of readers is as
/// it was then too.
#[derive(Drop)]
pub struct Shared<M> {
    plain: Plain<M>,
    waiting: Option<Waiting<M>>,
    theirs: Vec<u64>,
    commits: u64,
    since: u64,
    readers: u64,
    barred: bool,
}

impl<M: Means> Shared<M> {
    ghost use Rattle.witnesses.specs.Shared.{shared_state, shared_map, viewed};

    /// A view of an engine without commits. Nothing waits, no commit is of others, and the maps are the engine's.
    pub fn new(alloc: Global, plain: Plain<M>) -> Shared<M>
        requires live { PlainLive plain [] }
        requires history { plain.history ≡ [] }
        ensures live { SharedLive result [] }
        ensures state { shared_state result ≡ viewed [] 0 0 (state_of plain) }
        ensures maps { (pin : PinValue) → shared_map result pin ≡ plain_map plain pin }
        ensures waits { result.waiting ≡ Option.None }
        ensures barred { result.barred ≡ false }
        ensures runs { (first : PageMap) → PlainRuns (M.sound first) (M.leads first) first plain
            → SharedRuns (M.sound first) (M.leads first) first result }
    {
        Shared {
            plain,
            waiting: None,
            theirs: Vec::new(alloc),
            commits: 0,
            since: 0,
            readers: 0,
            barred: false,
        }
    }

    /// Whether no transaction may begin: one began, and neither ended nor was handed over.
    pub fn is_barred(&self) -> bool
        ensures { result ≡ self.now.barred }
    {
        self.barred
    }

    // Others commit what waits, where there is memory for it and nothing bars it.
    fn admit(&mut self)
        requires { (pins : List PinValue) × SharedLive self.old pins }
        ensures { TheirsCame M.Means self.old self.new }
    {
        let Some(waiting) = self.waiting.take() else {
            return;
        };
        if self.theirs.reserve(1).is_err() {
            return;
        }
        if let Some(number) = commit_theirs(&mut self.plain, waiting) {
            push_reserved(&mut self.theirs, number);
            self.commits = number;
        }
    }

    // What comes before the event of a call: others commit, and then the log begins anew and the readers are counted.
    fn meanwhile(&mut self)
        requires { (pins : List PinValue) × SharedLive self.old pins }
        ensures { OthersCame M.Means self.old self.new }
    {
        self.admit();
        self.since = self.commits;
        self.readers = u64::from(self.barred);
    }
}

// Commits a transaction of others. Answers the commit's number, or none where it became no commit.
fn commit_theirs<M: Means>(plain: &mut Plain<M>, waiting: Waiting<M>) -> Option<u64>
    requires live { IsLive PlainLive plain.old waiting.pin }
    requires fit { IsFit (state_of plain.old) waiting.pin waiting.prepared }
    ensures number { MatchOption result (state_of plain.new ≡ state_of plain.old) (λ number. SomeCommitted plain.old number plain.new) }
    ensures pins { KeepsPins PlainLive plain_map plain.old plain.new }
    ensures runs { (first : PageMap) → PlainRuns (M.sound first) (M.leads first) first plain.old
        → IfSome (plain_map plain.old waiting.pin) (λ snapshot. IsGood (M.sound first) (M.leads first) snapshot waiting.prepared)
        → PlainRuns (M.sound first) (M.leads first) first plain.new }
{
    let Waiting { pin, prepared, who } = waiting;
    let answer = plain.commit(&pin, prepared, who);
    number_of(answer)
}

// How many commits there are after this answer.
fn commits_after<M>(commits: u64, answer: &Result<Receipt, (CommitFault, Prepared<M>)>) -> u64
    ensures { result ≡ unwrap_or (number_in answer.now) commits }
{
    match answer {
        Ok(Receipt::At(number)) => *number,
        Ok(Receipt::ReadOnly(_)) => commits,
        Err(_) => commits,
    }
}

// The number of the commit that was answered, if one was.
fn number_of<M>(answer: Result<Receipt, (CommitFault, Prepared<M>)>) -> Option<u64>
    ensures { result ≡ number_in answer }
{
    match answer {
        Ok(Receipt::At(number)) => Some(number),
        Ok(Receipt::ReadOnly(_)) => None,
        Err(_) => None,
    }
}

// Pushes a number for which there is room.
fn push_reserved(items: &mut Vec<u64>, item: u64)
    requires { vec_len items.old < vec_capacity items.old }
    ensures { items.new.items ≡ items.old.items ++ item ∷ [] }
{
    match items.push(item) {
        Ok(()) => (),
        Err(_) => unreachable!(),
    }
}

impl<M: Means> EngineTells<M> for Shared<M> {
    ghost use Rattle.witnesses.specs.Shared.{shared_state, shared_map};
    ghost use Rattle.witnesses.specs.SharedLaws.{begins_never, shared_newest_sizes, shared_pinned_sizes, shared_tells, shared_bounds, shared_own, shared_legal, shared_logs, shared_run};

    ghost state = { shared_state };

    ghost live = { SharedLive };

    ghost map_at = { shared_map };

    ghost stands_from = { λ shared first. SharedRuns (M.sound first) (M.leads first) first shared };

    ghost opened = { λ shared opening. Unit {0} };

    ghost may_begin = { λ shared. shared.barred ≡ false };

    ghost loans = { λ shared. [] };

    ghost newest_sizes = { shared_newest_sizes };

    ghost pinned_sizes = { shared_pinned_sizes };

    ghost tells = { shared_tells };

    ghost bounds = { shared_bounds };

    ghost own_there = { shared_own };

    ghost legal = { shared_legal };

    ghost are_logs = { shared_logs };

    ghost run = { λ shared first runs. shared_run (M.sound first) (M.leads first) first shared runs };

    ghost begins_now = { λ shared always. begins_never always };

    ghost recovers = { λ shared opening opened. tt };
}

impl<M: Means> Engine<M> for Shared<M> {
    fn page_size(&self) -> usize {
        self.plain.page_size()
    }

    fn usable(&self) -> usize {
        self.plain.usable()
    }

    fn begin(&mut self) -> Pin {
        self.meanwhile();
        self.barred = true;
        let pin = self.plain.begin();
        Pin {
            n: pin.n,
            size: pin.size,
            lock: Lock::Part1,
            generation: 1,
            mark: 0,
        }
    }

    fn fetch(&mut self, pin: &Pin, page: u32, buf: &mut [u8]) -> Result<(), FetchFault> {
        self.meanwhile();
        self.plain.fetch(pin, page, buf)
    }

    fn commit(
        &mut self,
        pin: &Pin,
        prepared: Prepared<M>,
        who: Who,
    ) -> Result<Receipt, (CommitFault, Prepared<M>)>
        requires live { IsLive ⟦<Shared<M> as EngineTells<M>>⟧.live self.old pin.now }
        requires fit { IsFit (⟦<Shared<M> as EngineTells<M>>⟧.state self.old) pin.now prepared }
        requires good { IsGoodForOthers M.Means ⟦<Shared<M> as EngineTells<M>>⟧ self.old pin.now prepared }
        ensures { HasCommitted M.Means ⟦<Shared<M> as EngineTells<M>>⟧ self.old pin.now prepared who result self.new }
    {
        self.meanwhile();
        let answer = self.plain.commit(pin, prepared, who);
        self.commits = commits_after(self.commits, &answer);
        answer
    }

    fn ckpt(&mut self) -> Result<Ckpt, Failed> {
        self.meanwhile();
        Ok(Ckpt::Idle)
    }

    fn logs(&mut self) -> Logs {
        self.meanwhile();
        Logs {
            current: 1,
            frames: 0,
            done: true,
        }
    }

    fn end(&mut self, pin: Pin) {
        let _ = pin;
        self.barred = false;
    }
}

impl<M: Means> Shared<M> {
    ghost use Rattle.witnesses.specs.Shared.{shared_state, shared_map};

    /// Hands the owner's transaction over to others, with its pin. It is good for each run for which the view stands, as a commit
    /// of another view has to be. What waited before never becomes a commit. What the view tells stays, and so do its maps.
    pub fn hand_over(&mut self, pin: Pin, prepared: Prepared<M>, who: Who)
        requires live { IsLive SharedLive self.old pin }
        requires fit { IsFit (state_of self.old.plain) pin prepared }
        requires good { (first : PageMap) → SharedRuns (M.sound first) (M.leads first) first self.old
            → IfSome (plain_map self.old.plain pin) (λ snapshot. IsGood (M.sound first) (M.leads first) snapshot prepared) }
        ensures live { (before after : List PinValue) → SharedLive self.old (before ++ pin ∷ after) → SharedLive self.new (before ++ after) }
        ensures state { shared_state self.new ≡ shared_state self.old }
        ensures maps { (other : PinValue) → shared_map self.new other ≡ shared_map self.old other }
        ensures waits { self.new.waiting ≡ Option.Some (record { pin = pin; prepared = prepared; who = who }) }
        ensures barred { self.new.barred ≡ false }
        ensures runs { (first : PageMap) → SharedRuns (M.sound first) (M.leads first) first self.old
            → SharedRuns (M.sound first) (M.leads first) first self.new }
    {
        self.waiting = Some(Waiting { pin, prepared, who });
        self.barred = false;
    }
}
