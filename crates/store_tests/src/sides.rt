// The same acts over the engine in memory and over a store on a disk, which have to be answered alike.
use crate::lines::Line;
use crate::rows::PAGE;
use crate::trial::{acts_of, is_told, starts};
use acts::play;
use page_lines::Told;
use page_runs::engine_of_zeros;
use std::alloc::{AllocError, Global};

/// A page is read and then written by another session, and its reader is refused.
const LINES: &[Line] = &[
    Line::Begin(1),
    Line::Begin(2),
    Line::Read(1, 2, 0),
    Line::Write(2, 2, 7),
    Line::Commit(2, 1),
    Line::Write(1, 3, 9),
    Line::Read(1, 2, 0),
    Line::Busy(1, 2, 1),
    Line::Rollback(1, true),
    Line::Begin(1),
    Line::Read(1, 2, 7),
    Line::Read(1, 3, 0),
];

/// The answers of the engine in memory.
fn in_memory(alloc: Global) -> Result<Vec<Told>, AllocError> {
    let acts = acts_of(alloc, LINES)?;
    let mut engine = engine_of_zeros(alloc)?;
    play(alloc, &mut engine, &acts)
}

fn memory_answers(alloc: Global) -> bool {
    match in_memory(alloc) {
        Ok(told) => is_told(&told, LINES),
        Err(_) => false,
    }
}

/// The same of a store on three empty files.
#[tactic(auto, unfolding(page_spec::specs::Header::is_page_size))]
fn disk_answers(alloc: Global) -> bool {
    match starts(alloc, None, PAGE, 1000, LINES) {
        Ok(run) => run.tells(LINES),
        Err(_) => false,
    }
}

#[test]
fn both_engines_answer_alike(rt: HostRuntime) {
    assert!(rt; memory_answers(rt.alloc()));
    assert!(rt; disk_answers(rt.alloc()));
}
