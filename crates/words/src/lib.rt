//! The words of the command line, and what they ask for.
//!
//! The first word is the command: `pages` or `check`. Behind it stand, in any order:
//!
//! | words | how often | what is allowed |
//! |---|---|---|
//! | `--limit N`, `--limit=N` | once at most, behind `pages` alone | from 1 to 1,000,000 frames; 1,000 where it isn't given |
//! | `--page-size N`, `--page-size=N` | once at most, behind `pages` alone | a power of two from 512 to 65,536 bytes; 4,096 where it isn't given |
//! | the path of a database | once at most behind `pages`, and once behind `check` | UTF-8, not empty; behind `--` it may begin with `-` |
//!
//! `specs/Words.antt` says what each word means.
#![tactic(auto)]

mod found;
mod number;
mod request;

pub use request::{Pages, Request, read_words};
