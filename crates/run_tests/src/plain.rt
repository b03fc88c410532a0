// A plain store: the bytes of three pages, and how its logs stand as far as replies told it. It says of each reply whether it may come.
use crate::rows::Asked;
use std::alloc::{AllocError, Global};

/// The first byte of pages 2, 3 and 4, as a digit.
pub type Digits = [u8; 3];

/// What each commit writes.
const WRITTEN: Digits = [b'7', b'8', b'9'];

/// The replies to a commit that goes well, by how many did before.
const DONE: [&[u8]; 3] = [b"1: commit 1", b"1: commit 2", b"1: commit 3"];

/// The replies to the reader's commit, by how many commits it saw.
const READ_ONLY: [&[u8]; 3] = [b"3: read 0", b"3: read 1", b"3: read 2"];

/// How the logs stand before the one goes over to the other, by how many commits went well.
const FIRST_LOG: [&[u8]; 3] = [
    b"0: log 1 frames 0 other done",
    b"0: log 1 frames 2 other done",
    b"0: log 1 frames 4 other done",
];

/// The replies to a commit after a log's write failed, with how many commits had gone well then. The place is that of the first frame of the commit that
/// failed, or 0 where it was the header of log 2. A header has 32 bytes, and a frame 536.
const STOPPED: [(usize, &[u8]); 4] = [
    (0, b"1: error stopped log 1 at 32"),
    (1, b"1: error stopped log 1 at 1104"),
    (2, b"1: error stopped log 2 at 0"),
    (2, b"1: error stopped log 2 at 32"),
];

/// The store, and the two sessions.
#[derive(Clone, Copy)]
pub struct Plain {
    digits: Digits,
    commits: usize,
    /// Whether session 1 is in a transaction.
    open: bool,
    /// How many commits session 3 sees, as long as it reads.
    reader: Option<usize>,
    /// The first commit that a failed disk refused after the last one that went well.
    in_hand: Option<usize>,
    /// Which of the replies to a stopped commit came.
    pub stopped: Option<usize>,
    /// Whether log 1 waits to be copied.
    waits: bool,
    /// How many replies tell of a failed disk.
    pub failures: u64,
}

fn is(reply: &[u8], text: &[u8]) -> bool {
    reply == text
}

fn is_at(replies: &[&[u8]; 3], at: usize, reply: &[u8]) -> bool {
    at < 3 && replies[at] == reply
}

// Which of the replies to a stopped commit this is.
fn stop_told(commits: usize, reply: &[u8]) -> Option<usize> {
    for at in 0..4 {
        if STOPPED[at].0 == commits && STOPPED[at].1 == reply {
            return Some(at);
        }
    }
    None
}

fn with_commit(digits: Digits, at: usize) -> Digits {
    let mut with = digits;
    if at < 3 {
        with[at] = WRITTEN[at];
    }
    with
}

// The replies to a begin and a read of each page.
fn reads(alloc: Global, digits: Digits) -> Result<Vec<u8>, AllocError> {
    let mut replies = b"1: ok\n".to_vec(alloc)?;
    for digit in digits {
        replies.extend_from_slice(b"1: byte ")?;
        replies.push(digit)?;
        replies.push(b'\n')?;
    }
    Ok(replies)
}

impl Plain {
    /// Pages of zeros, and empty logs.
    pub fn new() -> Plain {
        Plain {
            digits: [b'0'; 3],
            commits: 0,
            open: false,
            reader: None,
            in_hand: None,
            stopped: None,
            waits: false,
            failures: 0,
        }
    }

    /// Whether this reply may come, which is noted then.
    pub fn takes(&mut self, asked: Asked, reply: &[u8]) -> bool {
        match asked {
            Asked::Begin => {
                self.open = true;
                is(reply, b"1: ok")
            }
            Asked::Write => is(reply, b"1: ok"),
            Asked::Commit(at) => self.commits_one(at, reply),
            Asked::Rollback => self.rolls_back(reply),
            Asked::BeginReader => {
                self.reader = Some(self.commits);
                is(reply, b"3: ok")
            }
            Asked::Read => is(reply, b"3: byte 0") || self.fails(reply, b"3: error disk"),
            Asked::EndReader => self.ends_reader(reply),
            Asked::Logs => self.tells_logs(reply),
            Asked::Copy => self.copies(reply),
            Asked::Step => self.steps(reply),
        }
    }

    fn fails(&mut self, reply: &[u8], failed: &[u8]) -> bool {
        self.failures = self.failures.saturating_add(1);
        reply == failed
    }

    fn commits_one(&mut self, at: usize, reply: &[u8]) -> bool {
        if !self.open {
            return is(reply, b"1: error no transaction");
        }
        if is_at(&DONE, self.commits, reply) {
            self.digits = with_commit(self.digits, at);
            self.commits = self.commits.saturating_add(1);
            self.open = false;
            self.in_hand = None;
            return self.stopped.is_none();
        }
        match stop_told(self.commits, reply) {
            Some(place) => self.stops(place),
            None => self.refuses(at, reply),
        }
    }

    // The same place is told each time, once a commit failed.
    fn stops(&mut self, place: usize) -> bool {
        match self.stopped {
            Some(stopped) => stopped == place,
            None => {
                self.stopped = Some(place);
                self.in_hand.is_some()
            }
        }
    }

    fn refuses(&mut self, at: usize, reply: &[u8]) -> bool {
        if self.in_hand.is_none() {
            self.in_hand = Some(at);
        }
        self.stopped.is_none() && self.fails(reply, b"1: error disk")
    }

    fn rolls_back(&mut self, reply: &[u8]) -> bool {
        let open = self.open;
        self.open = false;
        if open {
            is(reply, b"1: ok")
        } else {
            is(reply, b"1: error no transaction")
        }
    }

    fn ends_reader(&mut self, reply: &[u8]) -> bool {
        match self.reader {
            Some(seen) => {
                self.reader = None;
                is_at(&READ_ONLY, seen, reply)
            }
            None => false,
        }
    }

    // The third commit may have gone over to log 2 before it failed.
    fn tells_logs(&mut self, reply: &[u8]) -> bool {
        if is_at(&FIRST_LOG, self.commits, reply) {
            return !self.waits;
        }
        self.waits = true;
        if self.commits == 3 {
            is(reply, b"0: log 2 frames 2 other pending")
        } else {
            self.commits == 2
                && self.in_hand.is_some()
                && is(reply, b"0: log 2 frames 0 other pending")
        }
    }

    fn copies(&mut self, reply: &[u8]) -> bool {
        if !self.waits {
            return is(reply, b"0: idle");
        }
        if self.reader.is_some() {
            return is(reply, b"0: held 1");
        }
        if is(reply, b"0: finished") {
            self.waits = false;
            return true;
        }
        self.fails(reply, b"0: error disk")
    }

    fn steps(&mut self, reply: &[u8]) -> bool {
        if self.waits {
            is(reply, b"0: copied 1") || self.fails(reply, b"0: error disk")
        } else {
            is(reply, b"0: idle")
        }
    }

    /// Whether these are the pages after the commits, or those with the commit in hand.
    pub fn recovers(&self, alloc: Global, replies: &[u8]) -> Result<bool, AllocError> {
        if replies == reads(alloc, self.digits)?.as_slice() {
            return Ok(true);
        }
        match self.in_hand {
            Some(at) => Ok(replies == reads(alloc, with_commit(self.digits, at))?.as_slice()),
            None => Ok(false),
        }
    }
}
