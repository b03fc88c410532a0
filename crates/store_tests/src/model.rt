// A plain store: the list of all its maps, of which each page is one byte. It says of each answer whether it may come, as long as each transaction
// writes one page and reads none that another writes.
use page_face::Receipt;
use page_lines::{Act, Told};
use std::alloc::{AllocError, Global};

/// The byte of each page, from page 1 on at place 1.
pub type Map = [u8; 17];

/// How many sessions there are, and one.
const SESSIONS: usize = 6;

/// A session: whether it is in a transaction, at which map, and which page it wrote, if any, else 0.
#[derive(Clone, Copy)]
struct Seat {
    open: bool,
    snap: usize,
    page: u32,
    byte: u8,
}

const OUT: Seat = Seat {
    open: false,
    snap: 0,
    page: 0,
    byte: 0,
};

/// The maps, and the sessions.
#[derive(Drop)]
pub struct PlainMaps {
    maps: Vec<Map>,
    seats: Vec<Seat>,
    /// The last commit that a failed disk refused, as long as none went well after it.
    hand: Option<Seat>,
    /// Where the log's write failed, as it was told first.
    pub halt: Option<(u8, u64)>,
    /// How many answers tell of a failed disk.
    pub failures: u64,
}

// The map with another byte in a page.
fn with_byte(map: Map, page: u32, byte: u8) -> Map {
    let mut new = map;
    if page <= 16 {
        new[page as usize] = byte;
    }
    new
}

// Whether these are the bytes of a map's pages from 2 on, behind the answer to a begin.
fn is_map(map: &Map, told: &[Told]) -> bool {
    if told.len() != 16 {
        return false;
    }
    for page in 2..17 {
        if told[page - 1] != Told::Byte(map[page]) {
            return false;
        }
    }
    true
}

impl PlainMaps {
    /// One map, of zeros.
    pub fn new(alloc: Global) -> Result<PlainMaps, AllocError> {
        Ok(PlainMaps {
            maps: vec![in alloc; [0; 17]; 1]?,
            seats: vec![in alloc; OUT; SESSIONS]?,
            hand: None,
            halt: None,
            failures: 0,
        })
    }

    /// How many commits were told.
    pub fn commits(&self) -> usize {
        self.maps.len().saturating_sub(1)
    }

    fn seat(&self, session: u32) -> Seat {
        let at = session as usize;
        if at < self.seats.len() {
            self.seats[at]
        } else {
            OUT
        }
    }

    fn put(&mut self, session: u32, seat: Seat) {
        let at = session as usize;
        if at < self.seats.len() {
            self.seats[at] = seat;
        }
    }

    fn newest(&self) -> Map {
        match self.maps.last() {
            Some(map) => *map,
            None => [0; 17],
        }
    }

    // The answer tells of a failed disk.
    fn fails(&mut self, told: Told) -> bool {
        self.failures = self.failures.saturating_add(1);
        told == Told::Disk
    }

    fn reads(&mut self, session: u32, page: u32, told: Told) -> bool {
        let seat = self.seat(session);
        if seat.snap >= self.maps.len() || page > 16 {
            return false;
        }
        let byte = if seat.page == page {
            seat.byte
        } else {
            self.maps[seat.snap][page as usize]
        };
        told == Told::Byte(byte) || self.fails(told)
    }

    fn commits_one(&mut self, session: u32, told: Told) -> bool {
        let seat = self.seat(session);
        if seat.page == 0 {
            self.put(session, OUT);
            return told == Told::Done(Receipt::ReadOnly(seat.snap as u64));
        }
        match told {
            Told::Done(Receipt::At(number)) => {
                self.put(session, OUT);
                self.grows(seat) && self.halt.is_none() && number == self.commits() as u64
            }
            Told::Stopped { log, at } => self.stops(log, at),
            _ => self.breaks(seat, told),
        }
    }

    // One more map, with the byte of a seat; or memory ran out.
    fn grows(&mut self, seat: Seat) -> bool {
        self.hand = None;
        let map = with_byte(self.newest(), seat.page, seat.byte);
        self.maps.push(map).is_ok()
    }

    // The same place is told each time, once a commit failed.
    fn stops(&mut self, log: u8, at: u64) -> bool {
        match self.halt {
            Some(halt) => halt == (log, at),
            None => {
                self.halt = Some((log, at));
                self.hand.is_some()
            }
        }
    }

    fn breaks(&mut self, seat: Seat, told: Told) -> bool {
        if self.hand.is_none() {
            self.hand = Some(seat);
        }
        self.halt.is_none() && self.fails(told)
    }

    fn begins(&mut self, session: u32, told: Told) -> bool {
        let snap = self.commits();
        self.put(
            session,
            Seat {
                open: true,
                snap,
                ..OUT
            },
        );
        told == Told::Ok
    }

    fn writes(&mut self, session: u32, page: u32, byte: u8, told: Told) -> bool {
        let seat = self.seat(session);
        self.put(session, Seat { page, byte, ..seat });
        told == Told::Ok
    }

    fn rolls_back(&mut self, session: u32, told: Told) -> bool {
        let open = self.seat(session).open;
        self.put(session, OUT);
        told == if open { Told::Ok } else { Told::NoTransaction }
    }

    /// Whether this answer to an act may come.
    pub fn takes(&mut self, act: Act, told: Told) -> bool {
        match act {
            Act::Begin { session } => self.begins(session, told),
            Act::Read { session, page } => self.reads(session, page, told),
            Act::Write {
                session,
                page,
                byte,
            } => self.writes(session, page, byte, told),
            Act::Commit { session } => self.commits_one(session, told),
            Act::Rollback { session } => self.rolls_back(session, told),
            Act::Copy | Act::Step => matches!(told, Told::Ckpt(_)) || self.fails(told),
            Act::Logs => matches!(told, Told::Logs(_)),
        }
    }

    /// Whether these answers to a begin and a read of each page tell the newest map, or that with the commit in hand.
    pub fn recovers(&self, told: &[Told]) -> bool {
        let newest = self.newest();
        is_map(&newest, told)
            || match self.hand {
                Some(seat) => is_map(&with_byte(newest, seat.page, seat.byte), told),
                None => false,
            }
    }
}
