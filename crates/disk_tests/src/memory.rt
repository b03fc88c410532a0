// What fails, what a crash leaves, and pieces that are given and taken.
ghost use Rattle.std.specs.Prelude.{◌≡◌, true, false, IfOk};

use disk_face::{Disk, Failed, File, Salts, Sink, Source};
use disk_mem::{Call, Fail, FixedSalts, Made, MemDisk, MemSink, MemSource};
use std::alloc::{AllocError, Global};

/// Pieces of at most two bytes, where the second call fails.
fn gives(source: &mut MemSource) -> bool {
    let mut buf = [0; 4];
    source.take(&mut buf) == Ok(2)
        && source.take(&mut buf) == Err(Failed)
        && source.take(&mut buf) == Ok(1)
        && buf == *b"cb\0\0"
}

fn gives_pieces(alloc: Global) -> bool {
    match b"abc".to_vec(alloc) {
        Ok(bytes) => gives(&mut MemSource::new(bytes, 2, Some(2))),
        Err(_) => false,
    }
}

#[test]
fn pieces_are_bounded_and_one_call_fails(rt: HostRuntime) {
    assert!(rt; gives_pieces(rt.alloc()));
}

fn keeps(sink: &mut MemSink) -> bool {
    sink.put(b"abcd") == Ok(3)
        && sink.put(b"d") == Err(Failed)
        && sink.written() == b"abc".as_slice()
}

#[test]
fn a_sink_keeps_what_is_put(rt: HostRuntime) {
    assert!(rt; keeps(&mut MemSink::new(rt.alloc(), 3, Some(2))));
}

fn are_in_turn(alloc: Global) -> bool {
    match [7].to_vec(alloc) {
        Ok(words) => {
            let mut salts = FixedSalts::new(words);
            salts.word() == 7 && salts.word() == 0
        }
        Err(_) => false,
    }
}

#[test]
fn salts_are_given_in_turn_and_then_0(rt: HostRuntime) {
    assert!(rt; are_in_turn(rt.alloc()));
}

const SECOND_WRITE: Option<Fail> = Some(Fail {
    file: File::Main,
    call: Call::Write,
    nth: 2,
});

const FIRST_SYNC: Option<Fail> = Some(Fail {
    file: File::Log1,
    call: Call::Sync,
    nth: 1,
});

/// A call, and whether it fails.
#[derive(Clone, Copy)]
enum Step {
    Writes(File, u64, &'static [u8]),
    Syncs(File),
    WriteFails(File, u64, &'static [u8]),
    SyncFails(File),
}

/// Calls on a main file `main` and empty logs, of which one may fail, the bytes that a crash picks, and the three files that it leaves.
type Crash = (
    Option<Fail>,
    &'static [Step],
    &'static [u8],
    [&'static [u8]; 3],
);

const CRASHES: &[Crash] = &[
    // One write, by how much is picked.
    (
        None,
        &[Step::Writes(File::Log1, 0, b"abc")],
        &[1, 2],
        [b"main", b"\x01\x02c", b""],
    ),
    (
        None,
        &[Step::Writes(File::Log1, 0, b"abc")],
        &[],
        [b"main", b"abc", b""],
    ),
    // What is synced stands.
    (
        None,
        &[
            Step::Writes(File::Log1, 0, b"abc"),
            Step::Syncs(File::Log1),
            Step::Writes(File::Log1, 2, b"d"),
        ],
        b"xyz",
        [b"main", b"abx", b""],
    ),
    // A sync of another file confirms nothing.
    (
        None,
        &[Step::Writes(File::Log1, 0, b"abc"), Step::Syncs(File::Log2)],
        b"xyz",
        [b"main", b"xyz", b""],
    ),
    // Two ranges overlap.
    (
        None,
        &[
            Step::Writes(File::Main, 0, b"XX"),
            Step::Writes(File::Main, 1, b"YY"),
        ],
        b"1234",
        [b"123n", b"", b""],
    ),
    // A write makes the file longer.
    (
        None,
        &[Step::Writes(File::Main, 3, b"Nex")],
        b"12",
        [b"mai12x", b"", b""],
    ),
    // The main file comes first, then the logs in turn.
    (
        None,
        &[
            Step::Writes(File::Log2, 0, b"l"),
            Step::Writes(File::Main, 1, b"A"),
            Step::Writes(File::Log1, 0, b"k"),
        ],
        b"123",
        [b"m1in", b"2", b"3"],
    ),
    // Any bytes stand in the range of a write that fails.
    (SECOND_WRITE, ONE_REFUSED, b"1234", [b"1234", b"", b""]),
    // A write that fails changes nothing.
    (SECOND_WRITE, ONE_REFUSED, b"", [b"MAin", b"", b""]),
    // A sync that fails confirms nothing.
    (
        FIRST_SYNC,
        &[
            Step::Writes(File::Log1, 0, b"abc"),
            Step::SyncFails(File::Log1),
            Step::Writes(File::Log2, 0, b"d"),
            Step::Syncs(File::Log2),
        ],
        b"xyzw",
        [b"main", b"xyz", b"d"],
    ),
];

const ONE_REFUSED: &[Step] = &[
    Step::Writes(File::Main, 0, b"M"),
    Step::WriteFails(File::Main, 2, b"IN"),
    Step::Writes(File::Main, 1, b"A"),
];

/// Whether the disk leaves what the row says.
fn is_right(alloc: Global, row: &Crash) -> bool {
    let (failing, steps, pick, files) = *row;
    match Trial::new(alloc, failing) {
        Ok(mut trial) => trial.makes_all(steps) && trial.leaves(pick, files),
        Err(_) => false,
    }
}

/// The place of the first row that isn't right.
fn first_wrong(alloc: Global) -> Option<usize> {
    for at in 0..CRASHES.len() {
        if !is_right(alloc, &CRASHES[at]) {
            return Some(at);
        }
    }
    None
}

#[test]
fn a_crash_leaves_what_was_picked(rt: HostRuntime) {
    assert_eq!(rt; first_wrong(rt.alloc()), None);
}

const fn made(call: Call, failed: bool) -> Made {
    Made {
        file: File::Main,
        call,
        failed,
    }
}

/// The calls up to the first one that it stops.
fn has_made(disk: &MemDisk) -> bool {
    let all = [
        made(Call::Attach, false),
        made(Call::Journal, false),
        made(Call::Journal, false),
        made(Call::Size, false),
        made(Call::Size, true),
    ];
    disk.calls() == 5 && disk.made() == all.as_slice()
}

fn stops_after_two(trial: &mut Trial) -> bool {
    trial.disk.set_journal(true);
    trial.disk.stop_after(2);
    trial.journal() == Ok(true) && trial.size() == Ok(4) && trial.size() == Err(Failed)
}

fn stops_at_once(trial: &mut Trial) -> bool {
    trial.disk.stop_after(0);
    trial.journal() == Err(Failed)
}

fn stops(alloc: Global) -> bool {
    match Trial::new(alloc, None) {
        Ok(mut trial) => {
            trial.journal() == Ok(false)
                && stops_after_two(&mut trial)
                && has_made(&trial.disk)
                && stops_at_once(&mut trial)
        }
        Err(_) => false,
    }
}

#[test]
fn a_disk_stops_where_it_is_told(rt: HostRuntime) {
    assert!(rt; stops(rt.alloc()));
}

fn reads(alloc: Global) -> bool {
    match Trial::new(alloc, None) {
        Ok(mut trial) => {
            let mut buf = [0; 2];
            trial.read(1, &mut buf) && buf == *b"ai"
        }
        Err(_) => false,
    }
}

#[test]
fn a_disk_reads_what_it_holds(rt: HostRuntime) {
    assert!(rt; reads(rt.alloc()));
}

// A disk whose files are named.
#[derive(Drop)]
struct Trial {
    disk: MemDisk,
    ghost attached: { disk.attached ≡ true },
}

fn disk_with(alloc: Global, failing: Option<Fail>) -> Result<MemDisk, AllocError>
    ensures { IfOk result (λ disk. disk.attached ≡ false) }
{
    let mut named = Vec::new(alloc);
    if let Some(fail) = failing {
        named.push(fail)?;
    }
    let main = b"main".to_vec(alloc)?;
    Ok(MemDisk::new(alloc, main, Vec::new(alloc), Vec::new(alloc), named))
}

impl Trial {
    // A disk with a main file `main` and empty logs.
    fn new(alloc: Global, failing: Option<Fail>) -> Result<Trial, Failed> {
        let Ok(mut disk) = disk_with(alloc, failing) else {
            return Err(Failed);
        };
        disk.attach(b"db")?;
        Ok(Trial { disk })
    }

    fn write(&mut self, file: File, at: u64, piece: &[u8]) -> Result<(), Failed> {
        if at <= self.disk.file(file).len() as u64 {
            self.disk.write_at(file, at, piece)
        } else {
            Err(Failed)
        }
    }

    fn sync(&mut self, file: File) -> Result<(), Failed> {
        self.disk.sync(file)
    }

    fn read(&mut self, at: u64, buf: &mut [u8]) -> bool {
        let length = self.disk.file(File::Main).len() as u64;
        at <= length
            && buf.len() as u64 <= length - at
            && self.disk.read_at(File::Main, at, buf).is_ok()
    }

    fn size(&mut self) -> Result<u64, Failed> {
        self.disk.size(File::Main)
    }

    fn journal(&mut self) -> Result<bool, Failed> {
        self.disk.journal()
    }

    fn makes(&mut self, step: Step) -> bool {
        match step {
            Step::Writes(file, at, piece) => self.write(file, at, piece).is_ok(),
            Step::Syncs(file) => self.sync(file).is_ok(),
            Step::WriteFails(file, at, piece) => self.write(file, at, piece).is_err(),
            Step::SyncFails(file) => self.sync(file).is_err(),
        }
    }

    fn makes_all(&mut self, steps: &[Step]) -> bool {
        for step in steps {
            if !self.makes(*step) {
                return false;
            }
        }
        true
    }

    // Whether a crash leaves these three files.
    fn leaves(&self, pick: &[u8], files: [&[u8]; 3]) -> bool {
        match self.disk.crash(pick) {
            Ok(left) => {
                left.file(File::Main) == files[0]
                    && left.file(File::Log1) == files[1]
                    && left.file(File::Log2) == files[2]
            }
            Err(_) => false,
        }
    }
}
