// Why a database isn't opened.
ghost use Rattle.std.specs.Prelude.{◌≡◌, ◌<◌, ◌++◌, length, OnOk, OnErr};
ghost use Rattle.store.specs.Opening.{fault_seen, is_mixed_seen, of_check, of_look};
ghost use Rattle.store.specs.Texts.{open_text};

use check_spec::CheckFault;
use recover::{LookFault, Seen};
use std::alloc::AllocError;
use std::error::Error;
use std::fmt;

/// How many pages a page store has.
pub(crate) const PAGE_COUNT: u32 = 16;

/// Why a database isn't opened. Where several causes stand together, the first of this list is told. The texts are told to users as they stand.
#[derive(Clone, Copy, Debug, PartialEq, Eq)]
pub enum OpenFault {
    /// A look at its files refuses it.
    Look(LookFault),
    /// It isn't a page store: the recovered map, or the count that its page 1 gives for it, isn't of 16 pages, or byte 100 of page 1 isn't 0. `pages`
    /// is the first of these counts that isn't 16, else 16; `byte` is that byte. Or all these are right, but the versions aren't this program's while log 2
    /// begins with a header of ours.
    NotPages { pages: u32, byte: u8 },
    /// It is to hold tables, and a check of its pages found this first. It isn't `Disk` nor `Memory`: these are told as the two below. `page 1 at 28` comes
    /// too where the pages are sound, but the count that page 1 gives once the database's file has them all isn't theirs, or they are more than 2^30 bytes.
    Check(CheckFault),
    /// The disk failed.
    Disk,
    /// Want of memory.
    Memory,
}

impl fmt::Display for OpenFault {
    ghost use Rattle.std.specs.Prelude.{Some};
    ghost use Rattle.store.specs.Texts.{open_text};

    ghost output = { λ fault. Some (open_text fault) };

    fn fmt<W: fmt::Write>(&self, f: &mut fmt::Formatter<W>) -> fmt::Result {
        match *self {
            OpenFault::Look(why) => write!(f, "{why}"),
            OpenFault::NotPages { .. } => write!(f, "not a page store"),
            OpenFault::Check(why) => write!(f, "{why}"),
            OpenFault::Disk => write!(f, "disk failed"),
            OpenFault::Memory => write!(f, "out of memory"),
        }
    }
}

impl Error for OpenFault {}

/// Appends the text of a fault. The error is want of memory; `to` has what it had before then.
pub fn append_reason(fault: &OpenFault, to: &mut Vec<u8>) -> Result<(), AllocError>
    ensures ok { OnOk result (to.new.items ≡ to.old.items ++ open_text fault.now) }
    ensures err { OnErr result (to.new.items ≡ to.old.items) }
{
    let reason = format!(in *to.allocator(); "{fault}")?;
    to.extend_from_slice(reason.as_bytes())
}

/// Why what was seen isn't a page store, if it isn't one. Of a new database nothing is asked.
pub(crate) fn pages_fault(seen: &Seen) -> Option<OpenFault>
    requires { length seen.now.places < 4294967295 }
    ensures { result ≡ fault_seen seen.now }
{
    if seen.is_new() {
        return None;
    }
    let (pages, named, byte) = (seen.pages(), seen.named(), seen.byte());
    if pages != PAGE_COUNT {
        Some(OpenFault::NotPages { pages, byte })
    } else if named != PAGE_COUNT || byte != 0 {
        Some(OpenFault::NotPages { pages: named, byte })
    } else {
        None
    }
}

/// The versions of a database that is there aren't this program's while log 2 begins with a header of ours. No file that only this program and programs
/// that know one log worked on is like that, since log 2 gets its first header after the database has this program's versions.
pub(crate) fn is_mixed(seen: &Seen) -> bool
    ensures { result ≡ is_mixed_seen seen.now }
{
    !seen.is_new() && !seen.is_ours() && seen.has_second_log()
}

/// A fault of a look at the files, as an opening tells it.
pub(crate) fn of_look(why: LookFault) -> OpenFault
    ensures { result ≡ of_look why }
{
    match why {
        LookFault::Disk => OpenFault::Disk,
        LookFault::Memory => OpenFault::Memory,
        other => OpenFault::Look(other),
    }
}

/// A fault of a check of the pages, as an opening tells it.
pub(crate) fn of_check(why: CheckFault) -> OpenFault
    ensures { result ≡ of_check why }
{
    match why {
        CheckFault::Disk => OpenFault::Disk,
        CheckFault::Memory => OpenFault::Memory,
        other => OpenFault::Check(other),
    }
}
