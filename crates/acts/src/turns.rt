// What an act does to one session's transaction, and to the engine.
ghost use Rattle.std.specs.Prelude.{◌≡◌, ◌≢◌, true, ℕ, ◌≤◌, ◌<◌, List, [], ◌∷◌, length, slice_index, IfOk, OnOk, OnErr, IfSome, MatchOption, MatchResult};
ghost use Rattle.page_spec.specs.PageMap.{page_at};
ghost use Rattle.engine_spec.specs.declared.commits.CommitFault.TheVariants as fault;
ghost use Rattle.engine_spec.specs.Change.{image_of};
ghost use Rattle.engine_spec.specs.TwoLogs.{told_logs};
ghost use Rattle.engine_spec.specs.State.{During};
ghost use Rattle.engine_spec.specs.Events.{FailsAlone, FailsInStep, Checkpoints};
ghost use Rattle.page_face.specs.Calls.{IsWholeEngine};
ghost use Rattle.page_face.specs.Pins.{IsLive};
ghost use Rattle.acts.specs.declared.seats.Seat.{Seat};
ghost use Rattle.acts.specs.declared.seats.State.TheVariants as state;
ghost use Rattle.page_lines.specs.Range.{IsInRange};
ghost use Rattle.acts.specs.Pagers.{Acts, told_between, EndsAll, ReadOpen, FetchOpen, CommitOpen, IsSoundState, IsSoundTransaction, pins_in, StepActs, CopyActs, IsLast};
ghost use Rattle.acts.specs.Turns.{act_of, Moves, AllLive, SwapsPins, StandsRefused, SeatHasBegun, IsBegun};
ghost use Rattle.engine_spec.specs.declared.pins.Pin.{Pin};
ghost use Rattle.page_lines.specs.declared.lines.Told.TheVariants as reply;

use crate::seats::{Seat, State, Transaction};
use crate::transaction::own_byte;
use disk_face::Failed;
use page_face::{Ckpt, CommitFault, Engine, Mode, Pin, Prepared, ReadSet, Who};
use page_lines::{Raw, Told};
use sqlite_items::Items;
use std::alloc::{AllocError, Global};
use std::marker::PhantomData;
use std::mem;

/// What an act asks of a session's transaction.
#[derive(Clone, Copy)]
pub enum Deed {
    /// The first byte of a page.
    Read {
        /// The page.
        page: u32,
    },
    /// That every byte of a page is set.
    Write {
        /// The page.
        page: u32,
        /// The value of each byte.
        byte: u8,
    },
    /// That it is committed.
    Commit,
    /// That it is given up.
    Rollback,
}

/// What acts take memory with: the allocator, and a buffer for a page.
#[derive(Drop)]
pub struct Room {
    /// Where memory comes from.
    pub alloc: Global,
    /// The bytes of the page that was fetched last.
    pub buf: Vec<u8>,
}

// Gives the buffer this many bytes. The error is want of memory.
fn make_room(buf: &mut Vec<u8>, size: usize) -> Result<(), AllocError>
    ensures { OnOk result (length buf.new.items ≡ size) }
{
    if buf.len() == size {
        Ok(())
    } else {
        buf.resize(size, 0)
    }
}

// The first byte of a page of the pin's map, or none where the disk failed. The error is want of memory.
#[tactic(auto, using(crate::proofs::Outcomes::still))]
fn first_byte<E: Engine<Raw>>(
    buf: &mut Vec<u8>,
    engine: &mut E,
    pin: &Pin,
    page: u32,
) -> Result<Option<u8>, AllocError>
    requires live { IsLive E.live engine.old pin.now }
    requires page { (1 ≤ page) × (page ≤ pin.now.size) }
    ensures found { IfOk result (λ found. MatchOption found
        (During (E.state engine.old) (λ mid. FailsAlone mid (E.state engine.new)))
        (λ byte. IfSome (E.map_at engine.old pin.now) (λ pages. byte ≡ slice_index (page_at pages page) 0)
        × During (E.state engine.old) (λ mid. E.state engine.new ≡ mid))) }
    ensures wanting { OnErr result (During (E.state engine.old) (λ mid. E.state engine.new ≡ mid)) }
    ensures stays { SwapsPins E.EngineTells engine.old [] engine.new [] }
{
    make_room(buf, engine.page_size())?;
    match engine.fetch(pin, page, buf.as_mut_slice()) {
        Ok(()) => Ok(Some(buf[0])),
        Err(_) => Ok(None),
    }
}

impl Transaction {
    // Reads a page of the snapshot. The error is want of memory, and leaves the transaction as it was.
    #[tactic(auto, using(crate::proofs::Outcomes::still))]
    fn fetch<E: Engine<Raw>>(
        &mut self,
        engine: &mut E,
        page: u32,
        room: &mut Room,
    ) -> Result<Told, AllocError>
        requires range { (2 ≤ page) × (page ≤ 16) }
        requires sound { IsSoundTransaction (E.state engine.old).page_size self.old }
        requires live { IsLive E.live engine.old self.old.pin }
        ensures acts { IfOk result (λ told. (before after : List Seat) (session ordinal : ℕ)
            → Moves before session ordinal (state.Open self.old) (state.Open self.new) after
            → FetchOpen (told_between E.EngineTells engine.old engine.new) session page before after told self.old) }
        ensures want { OnErr result (self.new ≡ self.old) }
        ensures wanting { OnErr result (During (E.state engine.old) (λ mid. E.state engine.new ≡ mid)) }
        ensures sound { IsSoundTransaction (E.state engine.new).page_size self.new }
        ensures pin { self.new.pin ≡ self.old.pin }
        ensures stays { SwapsPins E.EngineTells engine.old [] engine.new [] }
    {
        match first_byte(&mut room.buf, engine, &self.pin, page)? {
            None => Ok(Told::Disk),
            Some(byte) => {
                self.note_fetch(room.alloc, page)?;
                Ok(Told::Byte(byte))
            }
        }
    }

    // Reads a page. The error is want of memory, and leaves the transaction as it was.
    #[tactic(auto, using(crate::proofs::Outcomes::still))]
    fn read<E: Engine<Raw>>(
        &mut self,
        engine: &mut E,
        page: u32,
        room: &mut Room,
    ) -> Result<Told, AllocError>
        requires range { (2 ≤ page) × (page ≤ 16) }
        requires sound { IsSoundTransaction (E.state engine.old).page_size self.old }
        requires live { IsLive E.live engine.old self.old.pin }
        ensures acts { IfOk result (λ told. (before after : List Seat) (session ordinal : ℕ)
            → Moves before session ordinal (state.Open self.old) (state.Open self.new) after
            → ReadOpen (told_between E.EngineTells engine.old engine.new) session page before after told self.old
            (image_of self.old.changed page)) }
        ensures want { OnErr result (self.new ≡ self.old) }
        ensures wanting { OnErr result (During (E.state engine.old) (λ mid. E.state engine.new ≡ mid)) }
        ensures sound { IsSoundTransaction (E.state engine.new).page_size self.new }
        ensures pin { self.new.pin ≡ self.old.pin }
        ensures stays { SwapsPins E.EngineTells engine.old [] engine.new [] }
    {
        let page_size = engine.page_size();
        match own_byte(self.changed.as_slice(), page, page_size) {
            Some(byte) => {
                self.note_own(room.alloc, page)?;
                Ok(Told::Byte(byte))
            }
            None => self.fetch(engine, page, room),
        }
    }

    // Commits it. The error is want of memory, and leaves it as it was.
    #[tactic(auto, using(crate::proofs::Outcomes::still))]
    fn commit<E: Engine<Raw>>(
        self,
        engine: &mut E,
        who: Who,
        alloc: Global,
    ) -> (State, Result<Told, AllocError>)
        requires sound { IsSoundTransaction (E.state engine.old).page_size self }
        requires live { IsLive E.live engine.old self.pin }
        ensures acts { IfOk result.1 (λ told. (before after : List Seat)
            → Moves before who.session who.ordinal (state.Open self) result.0 after
            → CommitOpen (told_between E.EngineTells engine.old engine.new) who.session before after self told) }
        ensures want { OnErr result.1 (result.0 ≡ state.Open self) }
        ensures wanting { OnErr result.1 (During (E.state engine.old) (λ mid. E.state engine.new ≡ mid)) }
        ensures sound { IsSoundState (E.state engine.new).page_size result.0 }
        ensures stays { SwapsPins E.EngineTells engine.old (self.pin ∷ []) engine.new (pins_in result.0) }
    {
        let Transaction {
            pin,
            reads,
            changed,
            said,
            wrote,
        } = self;
        let prepared = Prepared {
            mode: Mode::Concurrent,
            snap: pin.n,
            base: pin.size,
            reads,
            changed,
            fresh: Items::new(alloc),
            freed: Items::new(alloc),
            tail: false,
            wrote,
            said,
            of: PhantomData,
        };
        match engine.commit(&pin, prepared, who) {
            Ok(receipt) => {
                engine.end(pin);
                (State::Out, Ok(Told::Done(receipt)))
            }
            Err((why, prepared)) => after_refusal(pin, why, prepared),
        }
    }

    // Does what is asked of it, open as it is. The error is want of memory, and leaves it as it was.
    #[tactic(auto, using(crate::proofs::Outcomes::still))]
    fn act<E: Engine<Raw>>(
        mut self,
        engine: &mut E,
        who: Who,
        deed: Deed,
        room: &mut Room,
    ) -> (State, Result<Told, AllocError>)
        requires range { IsInRange (act_of who.session deed) }
        requires sound { IsSoundTransaction (E.state engine.old).page_size self }
        requires live { IsLive E.live engine.old self.pin }
        ensures acts { IfOk result.1 (λ told. (before after : List Seat)
            → Moves before who.session who.ordinal (state.Open self) result.0 after
            → Acts (told_between E.EngineTells engine.old engine.new) before (act_of who.session deed) told after) }
        ensures want { OnErr result.1 (result.0 ≡ state.Open self) }
        ensures wanting { OnErr result.1 (During (E.state engine.old) (λ mid. E.state engine.new ≡ mid)) }
        ensures sound { IsSoundState (E.state engine.new).page_size result.0 }
        ensures stays { SwapsPins E.EngineTells engine.old (self.pin ∷ []) engine.new (pins_in result.0) }
    {
        match deed {
            Deed::Read { page } => {
                let told = self.read(engine, page, room);
                (State::Open(self), told)
            }
            Deed::Write { page, byte } => {
                let page_size = engine.page_size();
                let done = self.note_write(room.alloc, page, byte, page_size);
                (State::Open(self), done.map(|()| Told::Ok))
            }
            Deed::Commit => self.commit(engine, who, room.alloc),
            Deed::Rollback => {
                engine.end(self.pin);
                (State::Out, Ok(Told::Ok))
            }
        }
    }
}

// How a session stands after its COMMIT was refused, and what it is told.
fn after_refusal(
    pin: Pin,
    why: CommitFault,
    prepared: Prepared<Raw>,
) -> (State, Result<Told, AllocError>)
    requires { (page : ℕ) → why ≢ fault.Corrupt page }
    ensures { StandsRefused why (record { pin = pin; reads = prepared.reads; changed = prepared.changed; said = prepared.said; wrote = prepared.wrote }) result.0 result.1 }
{
    match why {
        CommitFault::BusySnapshot { page, commit } => {
            (State::Refused(pin), Ok(Told::Busy { page, commit }))
        }
        CommitFault::Stopped { log, at } => (back(pin, prepared), Ok(Told::Stopped { log, at })),
        CommitFault::SizeLimit { pages, .. } => (back(pin, prepared), Ok(Told::Size { pages })),
        CommitFault::Disk => (back(pin, prepared), Ok(Told::Disk)),
        CommitFault::Memory => (back(pin, prepared), Err(AllocError)),
        CommitFault::Corrupt { .. } => unreachable!(),
    }
}

// The transaction that was handed in.
fn back(pin: Pin, prepared: Prepared<Raw>) -> State
    ensures { result ≡ state.Open (record { pin = pin; reads = prepared.reads; changed = prepared.changed; said = prepared.said; wrote = prepared.wrote }) }
{
    State::Open(Transaction {
        pin,
        reads: prepared.reads,
        changed: prepared.changed,
        said: prepared.said,
        wrote: prepared.wrote,
    })
}

// Does what is asked of a refused transaction.
fn turn_refused<E: Engine<Raw>>(engine: &mut E, pin: Pin, session: u32, deed: Deed) -> (State, Told)
    requires live { IsLive E.live engine.old pin }
    ensures acts { (before after : List Seat) (ordinal : ℕ) → Moves before session ordinal (state.Refused pin) result.0 after
        → Acts (told_between E.EngineTells engine.old engine.new) before (act_of session deed) result.1 after }
    ensures sound { (page_size : ℕ) → IsSoundState page_size result.0 }
    ensures stays { SwapsPins E.EngineTells engine.old (pin ∷ []) engine.new (pins_in result.0) }
{
    match deed {
        Deed::Rollback => {
            engine.end(pin);
            (State::Out, Told::Ok)
        }
        Deed::Read { .. } | Deed::Write { .. } | Deed::Commit => {
            (State::Refused(pin), Told::MustRollBack)
        }
    }
}

impl Seat {
    /// Does what is asked of the session's transaction. The error is want of memory, and leaves the seat as it was.
    #[tactic(auto, using(crate::proofs::Outcomes::still))]
    pub fn turn<E: Engine<Raw>>(
        &mut self,
        engine: &mut E,
        deed: Deed,
        room: &mut Room,
    ) -> Result<Told, AllocError>
        requires range { IsInRange (act_of self.old.session deed) }
        requires sound { IsSoundState (E.state engine.old).page_size self.old.state }
        requires live { AllLive E.live engine.old (pins_in self.old.state) }
        ensures acts { IfOk result (λ told. (before after : List Seat)
            → Moves before self.old.session self.old.begun self.old.state self.new.state after
            → Acts (told_between E.EngineTells engine.old engine.new) before (act_of self.old.session deed) told after) }
        ensures want { OnErr result (self.new ≡ self.old) }
        ensures wanting { OnErr result (During (E.state engine.old) (λ mid. E.state engine.new ≡ mid)) }
        ensures session { self.new.session ≡ self.old.session }
        ensures begun { self.new.begun ≡ self.old.begun }
        ensures sound { IsSoundState (E.state engine.new).page_size self.new.state }
        ensures stays { SwapsPins E.EngineTells engine.old (pins_in self.old.state) engine.new (pins_in self.new.state) }
    {
        let who = Who {
            session: self.session,
            ordinal: self.begun,
        };
        match mem::replace(&mut self.state, State::Out) {
            State::Out => Ok(Told::NoTransaction),
            State::Open(transaction) => {
                let (state, told) = transaction.act(engine, who, deed, room);
                self.state = state;
                told
            }
            State::Refused(pin) => {
                let (state, told) = turn_refused(engine, pin, who.session, deed);
                self.state = state;
                Ok(told)
            }
        }
    }

    /// Begins a transaction of a session that is out of one.
    pub fn begin_out<E: Engine<Raw>>(&mut self, engine: &mut E, alloc: Global)
        requires whole { IsWholeEngine E.EngineTells engine.old }
        requires may { E.may_begin engine.old }
        requires pages { 16 ≤ (E.state engine.old).size }
        requires out { self.old.state ≡ state.Out }
        ensures begun { SeatHasBegun (told_between E.EngineTells engine.old engine.new) self.old self.new }
        ensures sound { IsSoundState (E.state engine.new).page_size self.new.state }
        ensures stays { SwapsPins E.EngineTells engine.old [] engine.new (pins_in self.new.state) }
    {
        let pin = engine.begin();
        self.begun = self.begun.saturating_add(1);
        self.state = State::Open(Transaction {
            pin,
            reads: ReadSet::new(alloc),
            changed: Items::new(alloc),
            said: Items::new(alloc),
            wrote: false,
        });
    }

    /// Begins a transaction of a session that has acted before.
    pub fn begin_again<E: Engine<Raw>>(&mut self, engine: &mut E, alloc: Global) -> Told
        requires whole { IsWholeEngine E.EngineTells engine.old }
        requires may { E.may_begin engine.old }
        requires pages { 16 ≤ (E.state engine.old).size }
        requires sound { IsSoundState (E.state engine.old).page_size self.old.state }
        ensures begun { IsBegun (told_between E.EngineTells engine.old engine.new) self.old self.new result self.old.state }
        ensures sound { IsSoundState (E.state engine.new).page_size self.new.state }
        ensures stays { SwapsPins E.EngineTells engine.old (pins_in self.old.state) engine.new (pins_in self.new.state) }
    {
        match &self.state {
            State::Out => {
                self.begin_out(engine, alloc);
                Told::Ok
            }
            State::Open(_) => Told::InTransaction,
            State::Refused(_) => Told::MustRollBack,
        }
    }
}

/// Takes one step of a checkpoint.
pub fn step<E: Engine<Raw>>(engine: &mut E) -> Told
    requires whole { IsWholeEngine E.EngineTells engine.old }
    ensures acts { StepActs (told_between E.EngineTells engine.old engine.new) result }
    ensures stays { SwapsPins E.EngineTells engine.old [] engine.new [] }
{
    match checkpoint(engine) {
        Ok(answer) => Told::Ckpt(answer),
        Err(_) => Told::Disk,
    }
}

/// Says how the logs stand.
pub fn logs<E: Engine<Raw>>(engine: &mut E) -> Told
    requires whole { IsWholeEngine E.EngineTells engine.old }
    ensures acts { During (E.state engine.old)
        (λ mid. (result ≡ reply.Logs (told_logs mid.logs mid.history)) × (E.state engine.new ≡ mid)) }
    ensures stays { SwapsPins E.EngineTells engine.old [] engine.new [] }
{
    Told::Logs(engine.logs())
}

/// Takes steps of a checkpoint until one copies no page.
pub fn copy<E: Engine<Raw>>(engine: &mut E) -> Told
    requires whole { IsWholeEngine E.EngineTells engine.old }
    requires always { (E.state engine.old).always_begins ≡ true }
    ensures acts { CopyActs (told_between E.EngineTells engine.old engine.new) result }
    ensures stays { SwapsPins E.EngineTells engine.old [] engine.new [] }
{
    let mut last = 0;
    loop {
        match checkpoint(engine) {
            Err(_) => return Told::Disk,
            Ok(answer) => match copied_page(answer) {
                None => return Told::Ckpt(answer),
                Some(page) => {
                    prove!(last < page);
                    last = page;
                }
            },
        }
    }
}

// Takes one step of a checkpoint.
fn checkpoint<E: Engine<Raw>>(engine: &mut E) -> Result<Ckpt, Failed>
    requires whole { IsWholeEngine E.EngineTells engine.old }
    ensures answer { MatchResult result
        (λ done. During (E.state engine.old) (λ mid. Checkpoints (E.opened engine.old) mid done (E.state engine.new)))
        (λ _. During (E.state engine.old) (λ mid. FailsInStep (E.opened engine.old) mid (E.state engine.new))) }
    ensures stays { SwapsPins E.EngineTells engine.old [] engine.new [] }
{
    engine.ckpt()
}

// The page that a step copied.
fn copied_page(answer: Ckpt) -> Option<u32>
    ensures { MatchOption result (IsLast answer) (λ page. answer ≡ Ckpt.Copied page) }
{
    match answer {
        Ckpt::Copied(page) => Some(page),
        Ckpt::Finished | Ckpt::Idle | Ckpt::Held(_) => None,
    }
}

impl State {
    /// Gives back the pin of a session that is in a transaction.
    pub fn end<E: Engine<Raw>>(&self, engine: &mut E)
        requires live { AllLive E.live engine.old (pins_in self.now) }
        ensures ends { EndsAll (pins_in self.now) (E.state engine.old) (E.state engine.new) }
        ensures stays { SwapsPins E.EngineTells engine.old (pins_in self.now) engine.new [] }
    {
        match self {
            State::Out => {}
            State::Open(transaction) => engine.end(transaction.pin),
            State::Refused(pin) => engine.end(*pin),
        }
    }
}
