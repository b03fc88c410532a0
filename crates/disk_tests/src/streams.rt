// Standard input and output, seen by stand-ins for them.
use disk_face::{Failed, Sink, Source};
use disk_real::{StdSink, StdSource, take_from};
use std::cell::{Cell, RefCell};
use std::fmt::Display;
use std::io;
use std::io::{ErrorKind, Read};

/// What one call of a stand-in does.
#[derive(Clone, Copy)]
enum Turn {
    /// Moves so many bytes.
    Moves(usize),
    Fails(ErrorKind),
}

/// The turns of four calls, one after another.
#[derive(Drop)]
struct Turns {
    turns: [Turn; 4],
    next: Cell<usize>,
}

impl Turns {
    fn next(&self) -> Turn {
        let next = self.next.get();
        self.next.set(next.saturating_add(1));
        match self.turns.get(next) {
            Some(turn) => *turn,
            None => Turn::Moves(0),
        }
    }
}

/// A standard output that takes what its turns say.
#[derive(Drop)]
struct Output {
    turns: Turns,
    taken: RefCell<Vec<u8>>,
}

impl Print for Output {
    fn print<D: Display + Drop>(&self, _value: D) -> io::Result<()> {
        Err(io::Error::from(ErrorKind::Unsupported))
    }

    fn println<D: Display + Drop>(&self, _value: D) -> io::Result<()> {
        Err(io::Error::from(ErrorKind::Unsupported))
    }

    fn write_all(&self, _bytes: &[u8]) -> io::Result<()> {
        Err(io::Error::from(ErrorKind::Unsupported))
    }

    fn write_some(&self, bytes: &[u8]) -> io::Result<usize> {
        match self.turns.next() {
            Turn::Moves(most) => {
                let count = most.min(bytes.len());
                if let Ok(mut taken) = self.taken.try_borrow_mut() {
                    taken.extend_from_slice(&bytes[..count])?;
                }
                Ok(count)
            }
            Turn::Fails(kind) => Err(io::Error::from(kind)),
        }
    }
}

#[test]
fn a_put_is_one_write_that_is_made(rt: HostRuntime) {
    let output = Output {
        turns: Turns {
            turns: [
                Turn::Fails(ErrorKind::Interrupted),
                Turn::Moves(1),
                Turn::Fails(ErrorKind::BrokenPipe),
                Turn::Moves(2),
            ],
            next: Cell::new(0),
        },
        taken: RefCell::new(Vec::new(rt.alloc())),
    };
    assert!(rt; puts(&mut StdSink::new(&output)));
    assert!(rt; output.taken.into_inner().as_slice() == b"abc".as_slice());
}

/// At last nothing is taken, which is a failure.
fn puts<S: Sink>(sink: &mut S) -> bool {
    sink.put(b"abc") == Ok(1)
        && sink.put(b"bc") == Err(Failed)
        && sink.put(b"bc") == Ok(2)
        && sink.put(b"d") == Err(Failed)
}

/// A reader that gives what its turns say.
#[derive(Drop)]
struct Giver {
    turns: Turns,
    left: &'static [u8],
}

impl Read for Giver {
    fn read(&mut self, buf: &mut [u8]) -> io::Result<usize> {
        match self.turns.next() {
            Turn::Moves(most) => {
                let count = most.min(buf.len()).min(self.left.len());
                buf[..count].copy_from_slice(&self.left[..count]);
                self.left = &self.left[count..];
                Ok(count)
            }
            Turn::Fails(kind) => Err(io::Error::from(kind)),
        }
    }
}

#[test]
fn a_take_is_one_read_that_is_made(rt: HostRuntime) {
    let mut reader = Giver {
        turns: Turns {
            turns: [
                Turn::Fails(ErrorKind::Interrupted),
                Turn::Moves(1),
                Turn::Fails(ErrorKind::Other),
                Turn::Moves(9),
            ],
            next: Cell::new(0),
        },
        left: b"abc",
    };
    let mut buf = *b"......";
    assert!(rt; takes(&mut reader, &mut buf));
    assert!(rt; buf == *b"abc...");
    assert!(rt; take_from(&mut reader, &mut buf).ok() == Some(0));
}

fn takes(reader: &mut Giver, buf: &mut [u8; 6]) -> bool {
    take_from(reader, buf).ok() == Some(1)
        && take_from(reader, buf).is_err()
        && take_from(reader, &mut buf[1..]).ok() == Some(2)
}

#[test]
fn standard_input_and_output_take_nothing(rt: HostRuntime) {
    assert_eq!(rt; StdSource::new(&rt).take(&mut []), Ok(0));
    assert_eq!(rt; StdSink::new(&rt).put(&[]), Ok(0));
}
