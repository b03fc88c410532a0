//! The freelist of a database: its pages listed, one of them taken out, one more put in.
//!
//! | bytes of a trunk | what |
//! |---|---|
//! | 0 to 3 | the number of the next trunk, 0 in the last one |
//! | 4 to 7 | how many leaves it lists |
//! | from 8 on | the numbers of these leaves, of four bytes each |
//!
//! The form is that of SQLite's page "Database File Format" under "The Freelist". Trunks and leaves alike are free pages. A leaf is
//! neither read nor written. How many pages a list has stands beside its first trunk, so walking it ends, whatever the trunks name.
#![tactic(auto)]

mod first;
mod free;
mod gives;
mod takes;
mod trunk;
mod walks;

pub use free::Free;
pub use gives::{give, give_with};
pub use takes::{take, take_with};
pub use walks::walk;
