// A store opened over a disk in memory, and lines played on it.
ghost use Rattle.std.specs.Prelude.{◌≡◌, ◌≤◌, true, IfOk, All, IsTrue};
ghost use Rattle.page_spec.specs.Header.{is_page_size};
ghost use Rattle.page_lines.specs.Range.{IsInRange};

use crate::lines::Line;
use crate::quiet::Quiet;
use acts::play;
use disk_face::Failed;
use disk_mem::{Fail, FixedSalts};
use engine_spec::Entry;
use page_lines::{Act, Raw, Told};
use recover::{Setup, StoreKind};
use std::alloc::{AllocError, Global};
use store::{OpenFault, Solo, Store};

/// The disk behind a run, what each line was answered, or why it wasn't opened, and the entries of the history then.
#[derive(Drop)]
pub struct Run {
    pub disk: Quiet,
    pub told: Result<Vec<Told>, OpenFault>,
    pub entries: Vec<Entry>,
}

// Whether the page of an act is one that page lines may name.
fn is_in_range(act: Act) -> bool
    ensures { result ≡ true → IsInRange act }
{
    match act {
        Act::Read { page, .. } | Act::Write { page, .. } => 2 <= page && page <= 16,
        _ => true,
    }
}

/// The acts of these lines. One that names another page is left out.
pub fn acts_of(alloc: Global, lines: &[Line]) -> Result<Vec<Act>, AllocError>
    ensures { IfOk result (λ acts. All IsInRange acts.items) }
{
    let mut acts = Vec::new(alloc);
    for line in lines {
        add_act(&mut acts, line.act())?;
    }
    Ok(acts)
}

fn add_act(acts: &mut Vec<Act>, act: Act) -> Result<(), AllocError>
    requires { All IsInRange acts.old.items }
    ensures { IfOk result (λ ok. All IsInRange acts.new.items) }
{
    if is_in_range(act) {
        acts.push(act)?;
    }
    Ok(())
}

/// Opens a page store of this page size and limit, and plays lines on it.
#[tactic(auto, unfolding(page_spec::specs::Header::is_page_size))]
pub fn opens(
    alloc: Global,
    disk: Quiet,
    page_size: u32,
    limit: u32,
    lines: &[Line],
) -> Result<Run, AllocError>
    requires attached { disk.disk.attached ≡ true }
    requires page_size { IsTrue (is_page_size page_size) }
    requires limit { 1 ≤ limit }
    ensures attached { IfOk result (λ run. run.disk.disk.attached ≡ true) }
{
    let acts = acts_of(alloc, lines)?;
    let setup = Setup {
        kind: StoreKind::Pages,
        page_size,
        limit,
    };
    let salts = FixedSalts::new(Vec::new(alloc));
    match Store::<Quiet, FixedSalts, Raw>::open(alloc, disk, salts, setup) {
        Ok(store) => {
            let mut solo = Solo::new(store);
            let told = play(alloc, &mut solo, &acts)?;
            let (disk, entries) = solo.into_store().close();
            Ok(Run {
                disk,
                told: Ok(told),
                entries,
            })
        }
        Err((fault, disk)) => Ok(Run {
            disk,
            told: Err(fault),
            entries: Vec::new(alloc),
        }),
    }
}

/// The same on three empty files, where the call that is named fails.
#[tactic(auto, unfolding(page_spec::specs::Header::is_page_size))]
pub fn starts(
    alloc: Global,
    failing: Option<Fail>,
    page_size: u32,
    limit: u32,
    lines: &[Line],
) -> Result<Run, Failed>
    requires page_size { IsTrue (is_page_size page_size) }
    requires limit { 1 ≤ limit }
    ensures attached { IfOk result (λ run. run.disk.disk.attached ≡ true) }
{
    let disk = Quiet::empty(alloc, failing)?;
    match opens(alloc, disk, page_size, limit, lines) {
        Ok(run) => Ok(run),
        Err(_) => Err(Failed),
    }
}

/// The same on what a crash leaves of a run's files with this pick.
#[tactic(auto, unfolding(page_spec::specs::Header::is_page_size))]
pub fn starts_again(
    alloc: Global,
    run: &Run,
    pick: &[u8],
    page_size: u32,
    limit: u32,
    lines: &[Line],
) -> Result<Run, Failed>
    requires page_size { IsTrue (is_page_size page_size) }
    requires limit { 1 ≤ limit }
{
    let left = run.disk.crashed(pick)?;
    match opens(alloc, left, page_size, limit, lines) {
        Ok(again) => Ok(again),
        Err(_) => Err(Failed),
    }
}

impl Run {
    /// Whether a line told the byte 0.
    pub fn tells_zero(&self, at: usize) -> bool {
        match &self.told {
            Ok(told) => at < told.len() && told[at] == Told::Byte(0),
            Err(_) => false,
        }
    }

    /// Whether just these lines were answered, each as it says.
    pub fn tells(&self, lines: &[Line]) -> bool {
        match &self.told {
            Ok(told) => is_told(told, lines),
            Err(_) => false,
        }
    }

    /// The first line that wasn't answered as it says, if there is one; the first of all where the store wasn't opened.
    pub fn first_wrong(&self, lines: &[Line]) -> Option<usize> {
        match &self.told {
            Ok(told) => first_wrong(told, lines),
            Err(_) => Some(0),
        }
    }
}

/// Whether these are the answers that the lines name.
pub fn is_told(told: &[Told], lines: &[Line]) -> bool {
    told.len() == lines.len() && first_wrong(told, lines).is_none()
}

fn first_wrong(told: &[Told], lines: &[Line]) -> Option<usize> {
    for at in 0..lines.len() {
        if at >= told.len() || told[at] != lines[at].told() {
            return Some(at);
        }
    }
    None
}
