// What an opening sees of a database's files before it writes anything.
ghost use Rattle.std.specs.Prelude.{◌≡◌, ◌-◌, ◌<◌, ◌≤◌, length, slice_index_or};
ghost use Rattle.crash_spec.specs.Marks.{number_of};
ghost use Rattle.recover.specs.Seeing.{is_front_ours};

use crate::place::Place;
use db_header::HeaderFault;
use disk_face::File;
use std::error::Error;
use std::fmt;
use std::marker::Model;
use wal_frames::Front;

/// Why a database isn't opened. Where several causes stand together, the first of this list is told; a call on the disk that fails is told
/// when it fails. The texts are told to users as they stand.
#[derive(Clone, Copy, Debug, PartialEq, Eq)]
pub enum LookFault {
    /// The header on page 1 is refused.
    Header(HeaderFault),
    /// Its versions are 2, 2, and log 1 is one of SQLite's own.
    WalMode,
    /// A rollback journal stands beside it.
    HotJournal,
    /// A log's header is signed and not ours, by the field at this offset in bytes: 4 the version, 8 the page size, also where it isn't
    /// that of page 1, 12 the generation, also where none is left that an opening could write.
    ForeignLog { file: File, at: u64 },
    /// The first page up to the size that neither a log nor the database holds whole.
    Missing { page: u32 },
    /// The disk failed.
    Disk,
    /// Want of memory.
    Memory,
}

impl fmt::Display for LookFault {
    ghost use Rattle.std.specs.Prelude.{Some};
    ghost use Rattle.recover.specs.Texts.{look_text};

    ghost output = { λ fault. Some (look_text fault) };

    fn fmt<W: fmt::Write>(&self, f: &mut fmt::Formatter<W>) -> fmt::Result {
        match *self {
            LookFault::Header(fault) => write!(f, "{fault}"),
            LookFault::WalMode => write!(f, "wal mode"),
            LookFault::HotJournal => write!(f, "hot journal"),
            LookFault::ForeignLog { file, at } => {
                let number = log_number(file);
                write!(f, "foreign log {number} at {at}")
            }
            LookFault::Missing { page } => write!(f, "missing page {page}"),
            LookFault::Disk => write!(f, "disk failed"),
            LookFault::Memory => write!(f, "out of memory"),
        }
    }
}

impl Error for LookFault {}

/// What an opening has seen. A contract sees it as [`SeenView`](crate::specs).
#[derive(Debug, Drop)]
pub struct Seen {
    /// Nothing is there yet: the database is empty, and no log has an accepted frame.
    pub(crate) is_new: bool,
    /// The page size in bytes: that of page 1, or what a new database gets.
    pub(crate) page_size: u32,
    /// How many bytes of a page are in use.
    pub(crate) usable: u32,
    /// The versions on page 1 are this program's.
    pub(crate) is_ours: bool,
    /// The size in pages that page 1 names, for a file as long as the database is once all that the logs hold is written to it.
    pub(crate) named: u32,
    /// Byte 100 of page 1.
    pub(crate) byte: u8,
    /// What the logs begin with.
    pub(crate) one: Front,
    pub(crate) two: Front,
    /// A log has an accepted frame.
    pub(crate) some_frames: bool,
    /// Where each page of the recovered map stands, from page 1 on.
    pub(crate) places: Vec<Place>,
}

impl Model for Seen {
    ghost use Rattle.recover.specs.Seeing.{SeenView};

    ghost Value = { SeenView };

    ghost view = { λ seen. record {
      is_new = seen.is_new;
      page_size = seen.page_size;
      usable = seen.usable;
      is_ours = seen.is_ours;
      named = seen.named;
      byte = seen.byte;
      one = seen.one;
      two = seen.two;
      some_frames = seen.some_frames;
      places = seen.places.items;
    } };
}

impl Seen {
    /// Nothing is there yet: the database is empty, and no log has an accepted frame.
    pub fn is_new(&self) -> bool
        ensures { result ≡ self.now.is_new }
    {
        self.is_new
    }

    /// The page size in bytes: that of page 1, or what a new database gets.
    pub fn page_size(&self) -> u32
        ensures { result ≡ self.now.page_size }
    {
        self.page_size
    }

    /// How many bytes of a page are in use.
    pub fn usable(&self) -> u32
        ensures { result ≡ self.now.usable }
    {
        self.usable
    }

    /// The size in pages of the recovered map, 0 where nothing is there yet.
    pub fn pages(&self) -> u32
        requires { length self.now.places < 4294967295 }
        ensures { result ≡ length self.now.places }
    {
        self.places.len() as u32
    }

    /// Where a page of the recovered map stands.
    pub(crate) fn place_of(&self, page: u32) -> Place
        requires { (1 ≤ page) × (page ≤ length self.now.places) }
        ensures { (none : Place) → result ≡ slice_index_or self.now.places (page - 1) none }
    {
        self.places[page as usize - 1]
    }

    /// The size in pages that page 1 names, for a file as long as the database is once all that the logs hold is written to it; 0 where
    /// nothing is there yet.
    pub fn named(&self) -> u32
        ensures { result ≡ self.now.named }
    {
        self.named
    }

    /// Byte 100 of page 1, 0 where nothing is there yet.
    pub fn byte(&self) -> u8
        ensures { result ≡ self.now.byte }
    {
        self.byte
    }

    /// The versions on page 1 are this program's.
    pub fn is_ours(&self) -> bool
        ensures { result ≡ self.now.is_ours }
    {
        self.is_ours
    }

    /// Log 2 begins with a header of ours.
    pub fn has_second_log(&self) -> bool
        ensures { result ≡ is_front_ours self.now.two }
    {
        matches!(self.two, Front::Ours(_))
    }
}

// The number of a log.
fn log_number(file: File) -> u8
    ensures { result ≡ number_of file }
{
    match file {
        File::Main => 0,
        File::Log1 => 1,
        File::Log2 => 2,
    }
}
