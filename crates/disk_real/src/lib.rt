//! What lies outside the program, as the operating system has it: real files, standard input and output, and words that
//! nobody can guess.
//!
//! Nothing here tells a byte that it reads or writes, since no contract can: each type says only that a call that fails
//! counts one fault, and that no other call counts one. A call fails where one of the operating system's fails, or one of its
//! answers is none that the traits allow, or memory is wanted. A disk says by which names its files were named as well, and
//! that no sync of a file goes well once one has failed. [`take_from`] and [`put_to`] say of any reader and writer what they
//! moved; standard input and output are these, called on the system's.
//!
//! What the code does, and what it asks of the system for it:
//! - **Reads and writes.** `read_at` fills the whole buffer with what was written last, or fails; `write_at` writes all of the
//!   piece, or fails. A missing file is empty, and is made by the first write to it, empty at first; a log isn't made before
//!   the database file. A call that was interrupted is made again.
//! - **Syncs.** `sync` is fsync of that file, and the first time of its folder too. What fsync has confirmed survives a loss
//!   of power, and until then nothing is touched but the ranges that were written. After a sync of a file has failed no other
//!   is made of it, since on many systems a second one answers well though the bytes never arrived. A folder that can't be
//!   opened for its sync, or whose system knows no such sync, is no failure: there the file's name is left to the system.
//! - **Opening.** `attach` opens the files that are there, once, for reading and writing, and makes none. It fails where one
//!   of them can't be opened so, is no regular file (a folder, a device, a pipe), or has another name by a hard link. A name
//!   is UTF-8: std's paths are text, and one that isn't fails.
//! - **One holder.** The database file is locked when it is opened or made, exclusively and without waiting (flock), and until
//!   the disk goes; where another one holds it the call fails. Whoever asks for this lock is kept out; that programs that
//!   don't ask leave the files alone is asked of whoever runs them.
//! - **Links.** A database's name that is a symbolic link is followed, and the logs stand beside the file that it leads to. A
//!   log's name that is one is refused. So is a file in whose place another one or a link is put while it is opened. A file is
//!   made only where nothing stands at its name.
//! - **Permissions.** A log that is made takes those of the database file, and its owner and group where this process may
//!   set them.
//! - **Standard streams.** Where the program was started with one of the first three descriptors closed, it is filled before
//!   a file is opened or made, so that none of them is ever a database's.
//! - Standard input gives its bytes in order, and none twice. Standard output takes them so.
//! - The number that the salts start from is one that nobody can guess.
#![tactic(auto)]

mod again;
mod disk;
mod fault;
mod file;
mod folder;
mod lock;
mod lost;
mod moves;
mod names;
mod opening;
mod place;
mod salts;
mod sink;
mod source;
mod standard;
mod three;

pub use disk::FileDisk;
pub use lock::LockFile;
pub use moves::{put_to, take_from};
pub use salts::NumberSalts;
pub use sink::StdSink;
pub use source::StdSource;
