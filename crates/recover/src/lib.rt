//! Makes a database's files ready for a store: what an opening sees of them, and what it writes.
//!
//! `look` only reads. It says where each page of the recovered map stands, or why the files aren't opened. `Recovered` gives these pages.
//!
//! Each function makes a few calls on the disk, and one clause says of every moment of it what a crash leaves, since the opening
//! began, and which state the files are in then.
#![tactic(auto)]

mod begin;
mod founding;
mod header;
mod inspect;
mod judge;
mod new_pages;
mod pages;
mod place;
mod places;
mod recovered;
mod scan;
mod seen;
mod settling;
mod setup;
mod sync;

pub use inspect::look;
pub use recovered::Recovered;
pub use seen::{LookFault, Seen};
pub use settling::settle;
pub use setup::{Setup, StoreKind};
