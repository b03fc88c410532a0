// Where the pages of the recovered map stand: found from the page numbers of both logs, each of which is walked once.
ghost use Rattle.std.specs.Prelude.{◌≡◌, ◌+◌, ◌/◌, ◌≤◌, ◌<◌, ℕ, true, length, slice_index_or, IfOk, IfErr, None};
ghost use Rattle.page_spec.specs.Header.{is_page_size};
ghost use Rattle.recover.specs.Headers.{generation_in};
ghost use Rattle.recover.specs.Seeing.{first_missing};
ghost use Rattle.recover.specs.Looking.{page_size_of_log, page_place, place_after, place_over, place_in, is_whole_at, ArePlaces, AreLegal, AreOver, is_whole_in, is_whole_by, IsMissing};
ghost use Rattle.wal_frames.specs.Found.{IsLegal};

use crate::place::Place;
use crate::seen::LookFault;
use disk_face::File;
use std::alloc::Global;
use wal_frames::{Accepted, Front};

/// How many bytes the header of a log has, and how many stand before the page in a frame.
const LOG_HEADER_SIZE: u64 = 32;

const HEAD_SIZE: u64 = 24;

/// The generation of a log's header, 0 where it has none of ours.
pub(crate) fn generation_of(front: &Front) -> u32
    ensures { result ≡ generation_in front.now }
{
    match *front {
        Front::Ours(header) => header.generation,
        Front::Foreign { .. } => 0,
        Front::Nothing => 0,
    }
}

/// The page size of a log, 0 where it has no header of ours.
#[tactic(auto, unfolding(page_spec::specs::Header::is_page_size))]
fn page_size_of(found: &Accepted) -> u32
    requires { (log : ℕ) × IsLegal log found.now }
    ensures value { result ≡ page_size_of_log found.now.front }
    ensures within { result ≤ 65536 }
{
    match found.front {
        Front::Ours(header) => header.page_size,
        Front::Foreign { .. } => 0,
        Front::Nothing => 0,
    }
}

/// The place of the page in the frame that has `count` before it.
fn page_place(size: u32, count: usize) -> u64
    requires size { size ≤ 65536 }
    requires count { count ≤ 4294967295 }
    ensures { result ≡ page_place size count }
{
    LOG_HEADER_SIZE + count as u64 * (HEAD_SIZE + u64::from(size)) + HEAD_SIZE
}

/// Where a page stands after a log with these page numbers: in its last frame there, else where it stood below.
fn place_after(log: File, size: u32, pages: &[u32], number: u32, below: Place) -> Place
    requires size { size ≤ 65536 }
    requires few { length pages.now ≤ 4294967295 }
    ensures { result ≡ place_after log size 0 pages.now number below }
{
    let mut place = below;
    for frame in 0..pages.len() {
        if pages[frame] == number {
            place = Place::InLog {
                file: log,
                at: page_place(size, frame),
            };
        }
    }
    place
}

/// Where a page stands after a log, over where it stood below.
fn place_over(log: File, found: &Accepted, number: u32, below: Place) -> Place
    requires legal { (log : ℕ) × IsLegal log found.now }
    requires few { length found.now.pages.items ≤ 4294967295 }
    ensures { result ≡ place_over log found.now number below }
{
    place_after(log, page_size_of(found), &found.pages, number, below)
}

/// Where page 1 stands.
pub(crate) fn first_place(one: &Accepted, two: &Accepted) -> Place
    requires { AreLegal one.now two.now }
    ensures { result ≡ place_in one.now two.now 1 }
{
    if generation_of(&one.front) < generation_of(&two.front) {
        let below = place_over(File::Log1, one, 1, Place::InMain);
        place_over(File::Log2, two, 1, below)
    } else {
        let below = place_over(File::Log2, two, 1, Place::InMain);
        place_over(File::Log1, one, 1, below)
    }
}

/// Has each page that a log holds stand there. The places are those of the pages from page 1 on.
fn lay_over(log: File, size: u32, pages: &[u32], places: &mut [Place])
    requires size { size ≤ 65536 }
    requires few { length pages.now ≤ 4294967295 }
    requires numbers { length places.old < 4294967295 }
    ensures count { length places.new ≡ length places.old }
    ensures each { (k : ℕ) (none : Place) → k < length places.old
        → slice_index_or places.new k none ≡ place_after log size 0 pages.now (k + 1) (slice_index_or places.old k none) }
{
    for frame in 0..pages.len() {
        let page = pages[frame] as usize;
        if 0 < page && page <= places.len() {
            places[page - 1] = Place::InLog {
                file: log,
                at: page_place(size, frame),
            };
        }
    }
}

/// Has each page stand where a log holds it.
fn lay_log(log: File, found: &Accepted, places: &mut [Place])
    requires legal { (log : ℕ) × IsLegal log found.now }
    requires few { length found.now.pages.items ≤ 4294967295 }
    requires numbers { length places.old < 4294967295 }
    ensures count { length places.new ≡ length places.old }
    ensures each { AreOver log found.now places.old places.new }
{
    lay_over(log, page_size_of(found), &found.pages, places)
}

/// Has each page stand where the logs hold it.
fn lay_logs(one: &Accepted, two: &Accepted, places: &mut [Place])
    requires legal { AreLegal one.now two.now }
    requires numbers { length places.old < 4294967295 }
    requires in_main { (k : ℕ) (none : Place) → k < length places.old → slice_index_or places.old k none ≡ Place.InMain }
    ensures count { length places.new ≡ length places.old }
    ensures each { ArePlaces one.now two.now places.new }
{
    if generation_of(&one.front) < generation_of(&two.front) {
        lay_log(File::Log1, one, places);
        lay_log(File::Log2, two, places);
    } else {
        lay_log(File::Log2, two, places);
        lay_log(File::Log1, one, places);
    }
}

/// Whether a log has the page there, or Main is long enough to have it whole.
fn is_whole_at(size: u32, main: u64, number: u32, place: Place) -> bool
    ensures { result ≡ is_whole_at size main number place }
{
    match place {
        Place::InMain => u64::from(number) * u64::from(size) <= main,
        Place::InLog { .. } => true,
    }
}

/// The first page that isn't whole.
fn find_missing(places: &[Place], size: u32, main: u64) -> Option<u32>
    requires { length places.now < 4294967295 }
    ensures { result ≡ first_missing (is_whole_in places.now size main) 1 (length places.now) }
{
    for index in 0..places.len() {
        let number = index as u32 + 1;
        if !is_whole_at(size, main, number, places[index]) {
            return Some(number);
        }
    }
    None
}

/// So many pages, all of them in Main.
fn all_in_main(alloc: Global, count: usize) -> Result<Vec<Place>, LookFault>
    ensures count { IfOk result (λ places. length places.items ≡ count) }
    ensures each { IfOk result (λ places. (k : ℕ) (none : Place) → k < count → slice_index_or places.items k none ≡ Place.InMain) }
    ensures fault { IfErr result (λ why. why ≡ LookFault.Memory) }
{
    match vec![in alloc; Place::InMain; count] {
        Ok(places) => Ok(places),
        Err(_) => Err(LookFault::Memory),
    }
}

/// Where so many pages stand, from page 1 on.
fn lay_places(
    alloc: Global,
    one: &Accepted,
    two: &Accepted,
    count: u32,
) -> Result<Vec<Place>, LookFault>
    requires legal { AreLegal one.now two.now }
    requires few { count < 4294967295 }
    ensures count { IfOk result (λ places. length places.items ≡ count) }
    ensures places { IfOk result (λ places. ArePlaces one.now two.now places.items) }
    ensures fault { IfErr result (λ why. why ≡ LookFault.Memory) }
{
    let mut places = match all_in_main(alloc, count as usize) {
        Ok(places) => places,
        Err(_) => return Err(LookFault::Memory),
    };
    lay_logs(one, two, &mut places);
    Ok(places)
}

/// How many pages from page 1 on are looked at, of so many: no more than can be whole, and one. A frame may name any size, so a
/// damaged file could else take memory for four billion pages.
fn looked_at(count: u32, size: u32, main: u64, frames: u64) -> u32
    requires { 0 < size }
    ensures within { result ≤ count }
    ensures enough { result < count → main / size + frames < result }
{
    let most = (main / u64::from(size))
        .saturating_add(frames)
        .saturating_add(1);
    if most < u64::from(count) {
        most as u32
    } else {
        count
    }
}

/// Where the pages of the recovered map stand, of which there are `count`; or the first of them that isn't whole.
pub(crate) fn find_places(
    alloc: Global,
    one: &Accepted,
    two: &Accepted,
    main: u64,
    size: u32,
    count: u32,
) -> Result<Vec<Place>, LookFault>
    requires legal { AreLegal one.now two.now }
    requires size { 0 < size }
    ensures count { IfOk result (λ places. length places.items ≡ count) }
    ensures few { IfOk result (λ places. length places.items < 4294967295) }
    ensures places { IfOk result (λ places. ArePlaces one.now two.now places.items) }
    ensures whole { IfOk result (λ places. first_missing (is_whole_by one.now two.now size main) 1 count ≡ None) }
    ensures missing { IfErr result (λ why. IsMissing (is_whole_by one.now two.now size main) count why) }
{
    let frames = one.pages.len() as u64 + two.pages.len() as u64;
    let some = looked_at(count, size, main, frames);
    if some == 4_294_967_295 {
        return Err(LookFault::Memory);
    }
    let places = match lay_places(alloc, one, two, some) {
        Ok(places) => places,
        Err(_) => return Err(LookFault::Memory),
    };
    if let Some(page) = find_missing(&places, size, main) {
        return Err(LookFault::Missing { page });
    }
    Ok(places)
}
