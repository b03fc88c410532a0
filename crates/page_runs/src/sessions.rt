// An engine of pages with the sessions of page lines over it.
ghost use Rattle.std.specs.Prelude.{◌≡◌, ◌≤◌, [], true, IfOk, OnErr};
ghost use Rattle.page_face.specs.Calls.{KeepsOpenings};
ghost use Rattle.page_lines.specs.Range.{IsInRange};
ghost use Rattle.page_runs.specs.Sessions.{Seated, MayAct, IsAnswered, Rests};

use acts::Pagers;
use page_face::Engine;
use page_lines::{Act, Raw, Told};
use std::alloc::{AllocError, Global};
use std::marker::Model;

/// An engine of pages to which nobody else commits, with the sessions of page lines that act on it.
///
/// A contract sees the engine and the list of seats. That the sessions may act (`MayAct`) is its invariant.
#[derive(Drop)]
pub struct Sessions<E: Engine<Raw>> {
    engine: E,
    pagers: Pagers,
}

impl<E: Engine<Raw>> Model for Sessions<E> {
    ghost use Rattle.page_runs.specs.Sessions.{Seated, MayAct};

    ghost Value = { Seated E };

    ghost view = { λ sessions. record { engine = sessions.engine; seats = sessions.pagers } };

    ghost invariant = { λ sessions. MayAct E.EngineTells sessions.engine sessions.pagers };
}

impl<E: Engine<Raw>> Sessions<E> {
    /// An engine on which no session has acted yet. It takes no memory.
    pub fn new(alloc: Global, engine: E) -> Sessions<E>
        requires alone { (E.state engine).alone ≡ true }
        requires always { (E.state engine).always_begins ≡ true }
        requires pages { 16 ≤ (E.state engine).size }
        requires live { E.live engine [] }
        ensures engine { result.engine ≡ engine }
        ensures seats { result.seats ≡ [] }
    {
        Sessions {
            engine,
            pagers: Pagers::new(alloc),
        }
    }

    /// Acts. The error is want of memory, and leaves the sessions as they were.
    pub fn act(&mut self, act: Act) -> Result<Told, AllocError>
        requires { IsInRange act }
        ensures answered { IfOk result (λ told. IsAnswered E.EngineTells self.old act told self.new) }
        ensures want { OnErr result (Rests E.EngineTells self.old self.new) }
        ensures opened { KeepsOpenings E.EngineTells self.old.engine self.new.engine }
        ensures loans { E.loans self.new.engine ≡ E.loans self.old.engine }
    {
        self.pagers.act(&mut self.engine, act)
    }

    /// The engine, moved out, on which what was left open isn't given back.
    pub fn into_engine(self) -> E
        ensures { result ≡ self.engine }
    {
        self.engine
    }
}
