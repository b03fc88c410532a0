// The sessions of page lines.
ghost use Rattle.std.specs.Prelude.{true, ◌≡◌, ◌≤◌, ◌<◌, ◌==◌, position, List, [], ◌++◌, Contains, IfOk, OnErr, Option};
ghost use Rattle.page_spec.specs.PageMap.{PageMap};
ghost use Rattle.page_lines.specs.declared.lines.Act.TheVariants as act;
ghost use Rattle.engine_spec.specs.declared.pins.Pin.{Pin};
ghost use Rattle.engine_spec.specs.State.{During};
ghost use Rattle.page_face.specs.Calls.{KeepsOpenings, KeepsRuns};
ghost use Rattle.page_lines.specs.Range.{IsInRange};
ghost use Rattle.acts.specs.Pagers.{Acts, AreSound, told_between, EndsAll, pins_of};
ghost use Rattle.acts.specs.Turns.{act_of, SwapsPins};

use crate::seats::{Seat, State};
use crate::turns::{Deed, Room, copy, logs, step};
use page_face::Engine;
use page_lines::{Act, Raw, Told};
use std::alloc::{AllocError, Global};
use std::marker::Model;

/// The sessions that act on an engine's pages by page lines. A contract sees the list of their seats.
#[derive(Drop)]
pub struct Pagers {
    room: Room,
    seats: Vec<Seat>,
}

impl Model for Pagers {
    ghost use Rattle.std.specs.Prelude.{List};
    ghost use Rattle.acts.specs.declared.seats.Seat.{Seat};

    ghost Value = { List Seat };

    ghost view = { λ pagers. pagers.seats.items };
}

impl Pagers {
    /// No session has acted yet. It takes no memory.
    pub fn new(alloc: Global) -> Pagers
        ensures { result ≡ [] }
    {
        Pagers {
            room: Room {
                alloc,
                buf: Vec::new(alloc),
            },
            seats: Vec::new(alloc),
        }
    }

    /// Acts over an engine on which a transaction may always begin, and whose maps have 16 pages.
    /// The error is want of memory, and leaves the session's transaction as it was.
    pub fn act<E: Engine<Raw>>(&mut self, engine: &mut E, act: Act) -> Result<Told, AllocError>
        requires always { (E.state engine.old).always_begins ≡ true }
        requires pages { 16 ≤ (E.state engine.old).size }
        requires range { IsInRange act }
        requires sound { AreSound (E.state engine.old).page_size self.old }
        requires live { (others : List Pin) × E.live engine.old (pins_of self.old ++ others) }

        ensures acts { IfOk result (λ told. Acts (told_between E.EngineTells engine.old engine.new) self.old act told self.new) }

        // Want of memory leaves the sessions as they were, and of the engine all but its count of faults.
        ensures want { OnErr result (self.new ≡ self.old) }
        ensures wanting { OnErr result (During (E.state engine.old) (λ mid. E.state engine.new ≡ mid)) }

        // What the next act asks for.
        ensures always { (E.state engine.new).always_begins ≡ true }
        ensures pages { 16 ≤ (E.state engine.new).size }
        ensures page_size { (E.state engine.new).page_size ≡ (E.state engine.old).page_size }
        ensures sound { AreSound (E.state engine.new).page_size self.new }
        ensures live { (others : List Pin) → E.live engine.old (pins_of self.old ++ others) → E.live engine.new (pins_of self.new ++ others) }

        // The maps of pins that stay are as they were.
        ensures maps { (others : List Pin) (pin : Pin) → E.live engine.old (pins_of self.old ++ others) → Contains (pins_of self.new ++ others) pin
            → Contains (pins_of self.old ++ others) pin → E.map_at engine.new pin ≡ E.map_at engine.old pin }
        ensures runs { KeepsRuns E.EngineTells engine.old engine.new }
        ensures alone { (E.state engine.new).alone ≡ (E.state engine.old).alone }
        ensures opened { KeepsOpenings E.EngineTells engine.old engine.new }
        ensures loans { E.loans engine.new ≡ E.loans engine.old }
    {
        act_on(&mut self.room, &mut self.seats, engine, act)
    }

    /// Rolls back what is still open, session by session.
    pub fn end<E: Engine<Raw>>(self, engine: &mut E)
        requires live { (others : List Pin) × E.live engine.old (pins_of self ++ others) }
        ensures ends { EndsAll (pins_of self) (E.state engine.old) (E.state engine.new) }
        ensures stays { SwapsPins E.EngineTells engine.old (pins_of self) engine.new [] }
    {
        end_all(self.seats.as_slice(), engine);
    }
}

// Rolls back what is still open in these seats.
fn end_all<E: Engine<Raw>>(seats: &[Seat], engine: &mut E)
    requires live { (others : List Pin) × E.live engine.old (pins_of seats.now ++ others) }
    ensures ends { EndsAll (pins_of seats.now) (E.state engine.old) (E.state engine.new) }
    ensures stays { SwapsPins E.EngineTells engine.old (pins_of seats.now) engine.new [] }
{
    for seat in seats {
        seat.state.end(engine);
    }
}

// An act over the list of seats.
#[tactic(auto, using(crate::proofs::Outcomes::still))]
fn act_on<E: Engine<Raw>>(
    room: &mut Room,
    seats: &mut Vec<Seat>,
    engine: &mut E,
    act: Act,
) -> Result<Told, AllocError>
    requires always { (E.state engine.old).always_begins ≡ true }
    requires pages { 16 ≤ (E.state engine.old).size }
    requires range { IsInRange act }
    requires sound { AreSound (E.state engine.old).page_size seats.old.items }
    requires live { (others : List Pin) × E.live engine.old (pins_of seats.old.items ++ others) }
    ensures acts { IfOk result (λ told. Acts (told_between E.EngineTells engine.old engine.new) seats.old.items act told seats.new.items) }
    ensures want { OnErr result (seats.new.items ≡ seats.old.items) }
    ensures wanting { OnErr result (During (E.state engine.old) (λ mid. E.state engine.new ≡ mid)) }
    ensures sound { AreSound (E.state engine.new).page_size seats.new.items }
    ensures stays { SwapsPins E.EngineTells engine.old (pins_of seats.old.items) engine.new (pins_of seats.new.items) }
{
    match act {
        Act::Begin { session } => begin(room.alloc, seats, engine, session),
        Act::Read { session, page } => in_seat(room, seats, engine, session, Deed::Read { page }),
        Act::Write {
            session,
            page,
            byte,
        } => { in_seat(room, seats, engine, session, Deed::Write { page, byte }) }
        Act::Commit { session } => in_seat(room, seats, engine, session, Deed::Commit),
        Act::Rollback { session } => in_seat(room, seats, engine, session, Deed::Rollback),
        Act::Copy => Ok(copy(engine)),
        Act::Step => Ok(step(engine)),
        Act::Logs => Ok(logs(engine)),
    }
}

// The index of the seat of this session.
fn place_of(seats: &[Seat], session: u32) -> Option<usize>
    ensures { result ≡ position (λ seat. seat.session == session) seats.now }
{
    seats.iter().position(|seat| seat.session == session)
}

// Does what is asked of a session's transaction.
#[tactic(auto, using(crate::proofs::Outcomes::still))]
fn in_seat<E: Engine<Raw>>(
    room: &mut Room,
    seats: &mut Vec<Seat>,
    engine: &mut E,
    session: u32,
    deed: Deed,
) -> Result<Told, AllocError>
    requires range { IsInRange (act_of session deed) }
    requires sound { AreSound (E.state engine.old).page_size seats.old.items }
    requires live { (others : List Pin) × E.live engine.old (pins_of seats.old.items ++ others) }
    ensures acts { IfOk result (λ told. Acts (told_between E.EngineTells engine.old engine.new) seats.old.items (act_of session deed) told seats.new.items) }
    ensures want { OnErr result (seats.new.items ≡ seats.old.items) }
    ensures wanting { OnErr result (During (E.state engine.old) (λ mid. E.state engine.new ≡ mid)) }
    ensures sound { AreSound (E.state engine.new).page_size seats.new.items }
    ensures stays { SwapsPins E.EngineTells engine.old (pins_of seats.old.items) engine.new (pins_of seats.new.items) }
{
    match place_of(seats.as_slice(), session) {
        None => Ok(Told::NoTransaction),
        Some(at) => seats[at].turn(engine, deed, room),
    }
}

// Begins a transaction. Room for the seat of a new session is taken first.
fn begin<E: Engine<Raw>>(
    alloc: Global,
    seats: &mut Vec<Seat>,
    engine: &mut E,
    session: u32,
) -> Result<Told, AllocError>
    requires always { (E.state engine.old).always_begins ≡ true }
    requires pages { 16 ≤ (E.state engine.old).size }
    requires sound { AreSound (E.state engine.old).page_size seats.old.items }
    requires live { (others : List Pin) × E.live engine.old (pins_of seats.old.items ++ others) }
    ensures acts { IfOk result (λ told. Acts (told_between E.EngineTells engine.old engine.new) seats.old.items (act.Begin session) told seats.new.items) }
    ensures want { OnErr result (seats.new.items ≡ seats.old.items) }
    ensures wanting { OnErr result (E.state engine.new ≡ E.state engine.old) }
    ensures sound { AreSound (E.state engine.new).page_size seats.new.items }
    ensures stays { SwapsPins E.EngineTells engine.old (pins_of seats.old.items) engine.new (pins_of seats.new.items) }
{
    match place_of(seats.as_slice(), session) {
        Some(at) => Ok(seats[at].begin_again(engine, alloc)),
        None => {
            let at = seats.len();
            seats.push(Seat {
                session,
                begun: 0,
                state: State::Out,
            })?;
            seats[at].begin_out(engine, alloc);
            Ok(Told::Ok)
        }
    }
}
