// What the words ask for, by the command.
ghost use Rattle.std.specs.Prelude.{◌≡◌, option_map, IfSome};
ghost use Rattle.std.specs.Option.{option_copied};
ghost use Rattle.words.specs.Seen.{asked_by, given_in, pages_asked};
ghost use Rattle.words.specs.Words.{IsWithinLimits, pages_of, path_alone, request_of};

use crate::found::{Found, found_in, is};
use disk_face::Word;

/// What the words ask for, a variant for each command.
#[derive(Clone, Copy, Debug, PartialEq, Eq)]
pub enum Request<'a> {
    /// `pages`: runs page lines.
    Pages(Pages<'a>),
    /// `check`: checks the database of this path, which is UTF-8 and not empty.
    Check { path: &'a [u8] },
}

/// A run of page lines.
#[derive(Clone, Copy, Debug, PartialEq, Eq)]
pub struct Pages<'a> {
    /// The path of the database, which is UTF-8 and not empty. None for pages in memory, on which the other fields have no effect.
    pub path: Option<&'a [u8]>,
    /// How many frames the current log has at least where a commit goes over to the other one, from 1 to 1,000,000.
    pub limit: u32,
    /// The size in bytes of the pages of a new database, a power of two from 512 to 65,536.
    pub page_size: u32,
}

/// What the words after the program's name ask for, None where they are refused. It takes no memory.
#[tactic(auto, unfolding(crate::specs::Words::request_of))]
pub fn read_words(words: &[Word]) -> Option<Request<'_>>
    ensures meaning { option_map asked_by result ≡ request_of words.now }
    ensures limits { IfSome result (λ request. IsWithinLimits (asked_by request)) }
{
    let (command, behind) = words.split_first()?;
    if is(command, b"pages") {
        Some(Request::Pages(filled(found_in(behind)?)))
    } else if is(command, b"check") {
        let path = path_alone(found_in(behind)?)?;
        Some(Request::Check { path })
    } else {
        None
    }
}

/// A run of page lines of what was found, with what stands where an option isn't given.
fn filled(found: Found<'_>) -> Pages<'_>
    ensures { pages_asked result ≡ pages_of (given_in found.entry) }
{
    Pages {
        path: found.path,
        limit: found.limit.unwrap_or(1000),
        page_size: found.page_size.unwrap_or(4096),
    }
}

/// The path that was found, where it is all that was.
#[tactic(auto, unfolding(crate::specs::Words::path_alone))]
fn path_alone(found: Found<'_>) -> Option<&[u8]>
    ensures { option_copied result ≡ path_alone (given_in found.entry) }
{
    if found.limit.is_some() || found.page_size.is_some() {
        return None;
    }
    found.path
}
