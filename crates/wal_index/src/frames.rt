// The frames of one log, by page.
//
// `pages` has the page of each frame. `order` has, for each part of 4,096 frames, the places of that part by rising page, and those of one page by
// rising place: an entry is how far into its part the place lies. So a frame is put in at the cost of its part, and each question is a
// binary search in each part, whatever the log's length. A frame takes 6 bytes.
ghost use Rattle.std.specs.Prelude.{◌≡◌, ℕ, ◌+◌, ◌-◌, ◌*◌, ◌/◌, ◌^◌, ◌<◌, ◌≤◌, List, [], ◌∷◌, ◌++◌, length, slice_index, true, false, insert, vec_len, OnOk, OnErr};
ghost use Rattle.std.specs.Vec.{vec_capacity};
ghost use Rattle.wal_index.specs.Frames.{FindsLast, FindsFirst, FindsNext};
ghost use Rattle.wal_index.specs.Parts.{LastIn, FirstIn, NextIn, lesser_of};
ghost use Rattle.wal_index.specs.Order.{AreOrdered, IsBefore, IsRank, part_start, named};

use crate::room::make_room;
use std::alloc::{AllocError, Global};
use std::marker::Model;

// How many frames a part has.
const PART: usize = 4096;

/// The frames of one log. A contract sees the page of each, and how many frames more can be added without memory.
#[derive(Debug, Drop)]
pub struct LogFrames {
    pages: Vec<u32>,
    order: Vec<u16>,
}

impl Model for LogFrames {
    ghost use Rattle.std.specs.Prelude.{◌-◌, ◌<◌, ◌^◌, length, min, vec_len};
    ghost use Rattle.std.specs.Vec.{vec_capacity};
    ghost use Rattle.wal_index.specs.Frames.{FrameList};
    ghost use Rattle.wal_index.specs.Order.{AreOrdered};

    ghost Value = { FrameList };

    ghost view = { λ frames. record {
      pages = frames.pages.items;
      room = min (vec_capacity frames.pages) (vec_capacity frames.order) - vec_len frames.pages;
    } };

    ghost invariant = { λ frames. AreOrdered frames.pages.items frames.order.items × (length frames.pages.items < 2 ^ 32) };
}

impl LogFrames {
    /// No frames. It takes no memory.
    pub fn new(alloc: Global) -> LogFrames
        ensures { result.pages ≡ [] }
    {
        LogFrames {
            pages: Vec::new(alloc),
            order: Vec::new(alloc),
        }
    }

    /// Makes room for so many frames more. The error is want of memory; the frames stay.
    pub fn reserve(&mut self, frames: usize) -> Result<(), AllocError>
        ensures room { OnOk result (frames ≤ self.new.room) }
        ensures more { self.old.room ≤ self.new.room }
        ensures pages { self.new.pages ≡ self.old.pages }
    {
        make_room(&mut self.pages, frames)?;
        make_room(&mut self.order, frames)
    }

    /// Takes all frames out. It takes no memory and keeps the room.
    pub fn clear(&mut self)
        ensures pages { self.new.pages ≡ [] }
        ensures room { self.old.room ≤ self.new.room }
    {
        self.pages.clear();
        self.order.clear();
    }

    /// Adds a frame of the page. It takes no memory: there is room.
    pub fn add(&mut self, page: u32)
        requires room { 0 < self.old.room }
        requires fits { length self.old.pages + 1 < 2 ^ 32 }
        ensures pages { self.new.pages ≡ self.old.pages ++ page ∷ [] }
        ensures room { self.old.room ≤ self.new.room + 1 }
    {
        let place = self.pages.len();
        let start = place / PART * PART;
        let entry = rank(&self.pages, &self.order, start, place, page, place);
        self.pages.push_reserved(page);
        insert_reserved(&mut self.order, entry, (place - start) as u16);
    }

    /// The number of the last frame of the page, at most the mark.
    pub fn find_last(&self, page: u32, mark: u32) -> Option<u32>
        ensures { FindsLast self.now.pages page mark result }
    {
        last_of(
            &self.pages,
            &self.order,
            page,
            self.pages.len().min(mark as usize),
        )
    }

    /// The number of the first frame of the page above this one.
    pub fn find_first(&self, page: u32, after: u32) -> Option<u32>
        ensures { FindsFirst self.now.pages page after result }
    {
        first_of(&self.pages, &self.order, page, after as usize)
    }

    /// The least page above this one of which there is a frame.
    pub fn find_next(&self, after: u32) -> Option<u32>
        ensures { FindsNext self.now.pages after result }
    {
        next_of(&self.pages, &self.order, after)
    }

    /// How many frames there are.
    pub fn len(&self) -> usize
        ensures count { result ≡ length self.now.pages }
        ensures fits { result < 2 ^ 32 }
    {
        self.pages.len()
    }
}

// Puts an item in before the one at an index. There is room, so it takes no memory.
fn insert_reserved(items: &mut Vec<u16>, at: usize, item: u16)
    requires within { at ≤ vec_len items.old }
    requires room { vec_len items.old < vec_capacity items.old }
    ensures items { items.new.items ≡ insert items.old.items at item }
    ensures len { vec_len items.new ≡ vec_len items.old + 1 }
    ensures capacity { vec_capacity items.old ≤ vec_capacity items.new }
{
    if items.insert(at, item).is_err() {
        unreachable!();
    }
}

// The place that an entry names.
fn place_at(order: &[u16], entry: usize) -> usize
    requires inside { entry < length order.now }
    requires fits { length order.now < 2 ^ 32 }
    ensures { result ≡ named order.now entry }
{
    entry / PART * PART + order[entry] as usize
}

// Whether an entry names a frame that comes before one of this page at this place.
fn is_before(pages: &[u32], order: &[u16], entry: usize, page: u32, place: usize) -> bool
    requires ordered { AreOrdered pages.now order.now }
    requires inside { entry < length pages.now }
    requires fits { length pages.now < 2 ^ 32 }
    ensures yes { result ≡ true → IsBefore pages.now (named order.now entry) page place }
    ensures no { result ≡ false → IsBefore pages.now (named order.now entry) page place → ⊥ }
{
    let here = place_at(order, entry);
    pages[here] < page || (pages[here] == page && here < place)
}

// Which entries of a part are before a frame of the page at the place: those below the answer.
fn rank(pages: &[u32], order: &[u16], start: usize, end: usize, page: u32, place: usize) -> usize
    requires ordered { AreOrdered pages.now order.now }
    requires part { (part_start start ≡ start) × (start ≤ end) × (end ≤ start + 4096) × (end ≤ length pages.now) }
    requires fits { length pages.now < 2 ^ 32 }
    ensures { IsRank pages.now order.now start end page place result }
{
    let mut low = start;
    let mut high = end;
    while low < high {
        let middle = low + (high - low) / 2;
        if is_before(pages, order, middle, page, place) {
            low = middle + 1;
        } else {
            high = middle;
        }
    }
    low
}

// The last place of the page in the part that starts here, below a limit.
fn last_in_part(
    pages: &[u32],
    order: &[u16],
    start: usize,
    page: u32,
    limit: usize,
) -> Option<usize>
    requires ordered { AreOrdered pages.now order.now }
    requires part { (part_start start ≡ start) × (start < length pages.now) }
    requires fits { length pages.now < 2 ^ 32 }
    ensures { LastIn pages.now start page limit result }
{
    let end = pages.len().min(start + PART);
    let entry = rank(pages, order, start, end, page, limit);
    if entry == start {
        return None;
    }
    let place = place_at(order, entry - 1);
    if pages[place] == page {
        Some(place)
    } else {
        None
    }
}

// The first place of the page in the part that starts here, from a place on.
fn first_in_part(
    pages: &[u32],
    order: &[u16],
    start: usize,
    page: u32,
    from: usize,
) -> Option<usize>
    requires ordered { AreOrdered pages.now order.now }
    requires part { (part_start start ≡ start) × (start < length pages.now) }
    requires fits { length pages.now < 2 ^ 32 }
    ensures { FirstIn pages.now start page from result }
{
    let end = pages.len().min(start + PART);
    let entry = rank(pages, order, start, end, page, from);
    if entry == end {
        return None;
    }
    let place = place_at(order, entry);
    if pages[place] == page {
        Some(place)
    } else {
        None
    }
}

// The least page in the part that starts here above the given one.
fn next_in_part(pages: &[u32], order: &[u16], start: usize, after: u32) -> Option<u32>
    requires ordered { AreOrdered pages.now order.now }
    requires part { (part_start start ≡ start) × (start < length pages.now) }
    requires fits { length pages.now < 2 ^ 32 }
    ensures { NextIn pages.now start after result }
{
    let end = pages.len().min(start + PART);
    let entry = rank(pages, order, start, end, after, pages.len());
    if entry == end {
        return None;
    }
    Some(pages[place_at(order, entry)])
}

// The last frame of the page among the first so many.
fn last_of(pages: &[u32], order: &[u16], page: u32, limit: usize) -> Option<u32>
    requires ordered { AreOrdered pages.now order.now }
    requires within { limit ≤ length pages.now }
    requires fits { length pages.now < 2 ^ 32 }
    ensures { FindsLast pages.now page limit result }
{
    let mut end = limit;
    while end > 0 {
        let start = (end - 1) / PART * PART;
        if let Some(place) = last_in_part(pages, order, start, page, limit) {
            return Some((place + 1) as u32);
        }
        end = start;
    }
    None
}

// The first frame of the page behind the first so many.
fn first_of(pages: &[u32], order: &[u16], page: u32, after: usize) -> Option<u32>
    requires ordered { AreOrdered pages.now order.now }
    requires few { after < 2 ^ 32 }
    requires fits { length pages.now < 2 ^ 32 }
    ensures { FindsFirst pages.now page after result }
{
    let mut start = after / PART * PART;
    while start < pages.len() {
        if let Some(place) = first_in_part(pages, order, start, page, after) {
            return Some((place + 1) as u32);
        }
        start += PART;
    }
    None
}

// The least page above this one of which there is a frame.
fn next_of(pages: &[u32], order: &[u16], after: u32) -> Option<u32>
    requires ordered { AreOrdered pages.now order.now }
    requires fits { length pages.now < 2 ^ 32 }
    ensures { FindsNext pages.now after result }
{
    let mut least = None;
    let mut start = 0;
    while start < pages.len() {
        least = lesser(least, next_in_part(pages, order, start, after));
        start += PART;
    }
    least
}

// The lesser of two pages, where there are two.
fn lesser(one: Option<u32>, other: Option<u32>) -> Option<u32>
    ensures { result ≡ lesser_of one other }
{
    match (one, other) {
        (Some(page), Some(next)) => Some(page.min(next)),
        (None, _) => other,
        (_, None) => one,
    }
}
