// Playing page lines.
ghost use Rattle.std.specs.Prelude.{◌≡◌, ◌≤◌, ◌⊎◌, true, List, [], ◌++◌, Contains, IfOk};
ghost use Rattle.disk_face.specs.Faults.{Rose};
ghost use Rattle.page_spec.specs.PageMap.{PageMap};
ghost use Rattle.engine_spec.specs.declared.pins.Pin.{Pin};
ghost use Rattle.engine_spec.specs.State.{EngineState};
ghost use Rattle.page_face.specs.Calls.{KeepsOpenings, KeepsRuns};
ghost use Rattle.page_lines.specs.Range.{AreInRange};
ghost use Rattle.page_lines.specs.World.{World, answers_to};
ghost use Rattle.acts.specs.Pagers.{pins_of, Plays, EndsAll, Grew};
ghost use Rattle.page_lines.specs.Logged.{LoggedWorld, Lines};
ghost use Rattle.acts.specs.Logged.{StandsLogged, past_of};
ghost use Rattle.acts.specs.Playing.{RestsAt, IsWithoutLogs, AreSessions, HaveNoLimit};

use crate::pagers::Pagers;
use page_face::Engine;
use page_lines::{Act, Raw, Told};
use std::alloc::{AllocError, Global};

/// Plays acts one after another, by sessions that haven't acted yet, and then rolls back what is still open. It needs an engine on
/// which a transaction may always begin, and whose maps have 16 pages. The error is want of memory: the acts before it were done,
/// and what they left open is rolled back too.
///
/// Engines that begin with as many commits and the same pages 2 to 16 give the same answers, as long as nobody else commits and no
/// disk fails. An engine that keeps logs may answer otherwise where a limit of the log is met, or where an act looks after the logs.
pub fn play<E: Engine<Raw>>(
    alloc: Global,
    engine: &mut E,
    acts: &[Act],
) -> Result<Vec<Told>, AllocError>
    requires always { (E.state engine.old).always_begins ≡ true }
    requires pages { 16 ≤ (E.state engine.old).size }
    requires range { AreInRange acts.now }
    requires live { E.live engine.old [] }

    ensures plays { IfOk result (λ told. Plays (E.opened engine.old) (E.state engine.old) (E.map_at engine.old) [] acts.now
        told.items (E.state engine.new)) }

    // Where nobody else commits and no fault was counted, the answers are those of the run over whole page maps. Where the engine
    // keeps logs, that is said of acts of sessions alone, as long as no limit is met.
    ensures answers { (E.state engine.old).alone ≡ true → (world : World) → RestsAt (E.state engine.old) world
        → (Rose (E.state engine.old).faults (E.state engine.new).faults → ⊥)
        → IfOk result (λ told. IsWithoutLogs (E.state engine.old) ⊎ (AreSessions acts.now × HaveNoLimit told.items)
        → told.items ≡ answers_to world acts.now) }

    // Where nobody else commits and the engine keeps logs, the run is one over whole page maps and two logs, from the world at which
    // the engine stood on: each answer, each failure of the disk and what it left, and at each moment what a crash leaves.
    ensures logged { (E.state engine.old).alone ≡ true → (logged : LoggedWorld) → StandsLogged (E.state engine.old) (E.map_at engine.old) [] logged
        → IfOk result (λ told. (after : LoggedWorld) × Lines (E.opened engine.old) logged (past_of (E.state engine.old)) acts.now told.items
        after (past_of (E.state engine.new))) }

    // With or without memory.
    ensures grew { Grew (E.state engine.old) (E.state engine.new) }
    ensures always { (E.state engine.new).always_begins ≡ true }
    ensures pages { 16 ≤ (E.state engine.new).size }
    ensures page_size { (E.state engine.new).page_size ≡ (E.state engine.old).page_size }
    ensures live { (others : List Pin) → E.live engine.old others → E.live engine.new others }
    ensures maps { (others : List Pin) (pin : Pin) → E.live engine.old others → Contains others pin → E.map_at engine.new pin ≡ E.map_at engine.old pin }
    ensures runs { KeepsRuns E.EngineTells engine.old engine.new }
    ensures alone { (E.state engine.new).alone ≡ (E.state engine.old).alone }
    ensures opened { KeepsOpenings E.EngineTells engine.old engine.new }
    ensures loans { E.loans engine.new ≡ E.loans engine.old }
{
    let mut pagers = Pagers::new(alloc);
    let answers = play_on(alloc, engine, &mut pagers, acts);
    pagers.end(engine);
    answers
}

// Plays acts, and leaves open what they leave open.
fn play_on<E: Engine<Raw>>(
    alloc: Global,
    engine: &mut E,
    pagers: &mut Pagers,
    acts: &[Act],
) -> Result<Vec<Told>, AllocError>
    requires always { (E.state engine.old).always_begins ≡ true }
    requires pages { 16 ≤ (E.state engine.old).size }
    requires range { AreInRange acts.now }
    requires live { E.live engine.old [] }
    requires none { pagers.old ≡ [] }
    ensures plays { IfOk result (λ told. (new : EngineState) → EndsAll (pins_of pagers.new) (E.state engine.new) new
        → Plays (E.opened engine.old) (E.state engine.old) (E.map_at engine.old) [] acts.now told.items new) }
    ensures grew { Grew (E.state engine.old) (E.state engine.new) }
    ensures always { (E.state engine.new).always_begins ≡ true }
    ensures pages { 16 ≤ (E.state engine.new).size }
    ensures page_size { (E.state engine.new).page_size ≡ (E.state engine.old).page_size }
    ensures live { (others : List Pin) → E.live engine.old others → E.live engine.new (pins_of pagers.new ++ others) }
    ensures maps { (others : List Pin) (pin : Pin) → E.live engine.old others → Contains others pin → E.map_at engine.new pin ≡ E.map_at engine.old pin }
    ensures runs { KeepsRuns E.EngineTells engine.old engine.new }
    ensures alone { (E.state engine.new).alone ≡ (E.state engine.old).alone }
    ensures opened { KeepsOpenings E.EngineTells engine.old engine.new }
    ensures loans { E.loans engine.new ≡ E.loans engine.old }
{
    let mut answers = Vec::new(alloc);
    for act in acts {
        answers.push(pagers.act(engine, *act)?)?;
    }
    Ok(answers)
}
