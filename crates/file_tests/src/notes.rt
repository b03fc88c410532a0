// What a stand-in for the runtime's files is asked for, and what is to go wrong with it.
use std::alloc::Global;
use std::cell::{Cell, RefCell};
use std::io;
use std::io::ErrorKind;

/// Calls that are to fail: those of this kind on the file with this name, so many of them behind those that are let through.
#[derive(Clone, Copy)]
pub(crate) struct Fault {
    pub(crate) call: &'static str,
    pub(crate) name: &'static str,
    pub(crate) after: u32,
    pub(crate) times: u32,
    pub(crate) kind: ErrorKind,
}

/// No call fails.
pub(crate) const NO_FAULT: Fault = Fault {
    call: "",
    name: "",
    after: 0,
    times: 0,
    kind: ErrorKind::Other,
};

/// How a call of a disk went.
#[derive(Clone, Copy)]
pub(crate) enum Went {
    Well,
    Failed,
    /// It was told as done, and did another thing.
    Wrong,
}

/// The calls so far as one text, and those that are to fail.
#[derive(Drop)]
pub(crate) struct Notes {
    text: RefCell<String>,
    /// Whether the calls of the files are in the text.
    has_calls: bool,
    fault: Cell<Fault>,
    /// How many descriptors of standard streams are free: the last of the three.
    closed: Cell<i32>,
    /// The file whose place a link takes while it is opened for writing.
    swapped: &'static str,
}

impl Notes {
    pub(crate) fn new(alloc: Global, fault: Fault) -> Notes {
        Notes {
            text: RefCell::new(String::new(alloc)),
            has_calls: false,
            fault: Cell::new(fault),
            closed: Cell::new(0),
            swapped: "",
        }
    }

    /// Notes of each call of the files, with so many standard streams closed.
    pub(crate) fn of_calls(alloc: Global, closed: i32, fault: Fault) -> Notes {
        Notes {
            has_calls: true,
            closed: Cell::new(closed),
            ..Notes::new(alloc, fault)
        }
    }

    /// Notes of files of which one has a link put in its place.
    pub(crate) fn of_swap(alloc: Global, swapped: &'static str) -> Notes {
        Notes {
            swapped,
            ..Notes::new(alloc, NO_FAULT)
        }
    }

    /// Whether a link takes the place of this file while it is opened for writing.
    pub(crate) fn swaps(&self, name: &str) -> bool {
        self.swapped == name
    }

    /// Whether these are the calls so far.
    pub(crate) fn are(&self, calls: &str) -> bool {
        match self.text.try_borrow() {
            Ok(text) => text.as_str() == calls,
            Err(_) => false,
        }
    }

    /// Notes a call of the disk by its letter.
    pub(crate) fn answer(&self, letter: &str, went: Went) -> io::Result<()> {
        self.write(letter)?;
        match went {
            Went::Well => Ok(()),
            Went::Failed => self.write("!"),
            Went::Wrong => self.write("?"),
        }
    }

    /// Notes a call of the files, and lets it through or not.
    pub(crate) fn note(&self, call: &str, name: &str) -> io::Result<()> {
        if self.has_calls {
            self.write("(")?;
            self.write(call)?;
            self.write(" ")?;
            self.write(name)?;
            self.write(")")?;
        }
        self.pass(call, name)
    }

    /// Lets a call of the files through, or not.
    pub(crate) fn pass(&self, call: &str, name: &str) -> io::Result<()> {
        let fault = self.fault.get();
        if fault.times == 0 || fault.call != call || fault.name != name {
            return Ok(());
        }
        if fault.after > 0 {
            let after = fault.after - 1;
            self.fault.set(Fault { after, ..fault });
            return Ok(());
        }
        let times = fault.times - 1;
        self.fault.set(Fault { times, ..fault });
        Err(io::Error::from(fault.kind))
    }

    /// The descriptor of a file that is opened: a standard stream's where one is free.
    pub(crate) fn next_descriptor(&self) -> i32 {
        let closed = self.closed.get();
        self.closed.set(closed.saturating_sub(1).max(0));
        3i32.saturating_sub(closed)
    }

    /// A file is closed.
    pub(crate) fn give_back(&self, descriptor: i32) {
        if descriptor < 3 {
            self.closed.set(self.closed.get().saturating_add(1));
        }
    }

    fn write(&self, piece: &str) -> io::Result<()> {
        match self.text.try_borrow_mut() {
            Ok(mut text) => Ok(text.push_str(piece)?),
            Err(_) => Err(io::Error::from(ErrorKind::Other)),
        }
    }
}
