// What the words behind the command give, found from the first one to the last. Each step either takes what stands at the front,
// or refuses all of the words.
ghost use Rattle.std.specs.Prelude.{◌≡◌, ◌≤◌, false, ◌∷◌, length, codes, bytes_eq, option_map, option_and_then, IfSome};
ghost use Rattle.std.specs.Str.{is_utf8};
ghost use Rattle.words.specs.Seen.{given_in};
ghost use Rattle.words.specs.Words.{nothing_given, is_dashed, is_path, with_path, with_limit, with_size, with_word, given_as_paths, given_by};

use crate::number::{limit_in, page_size_in};
use disk_face::Word;

/// What the words up to here give. Each is None where it isn't given yet.
#[derive(Clone, Copy)]
pub(crate) struct Found<'a> {
    /// The path of the database.
    pub path: Option<&'a [u8]>,
    /// The value of `--limit`.
    pub limit: Option<u32>,
    /// The value of `--page-size`.
    pub page_size: Option<u32>,
}

/// What all the words behind the command give. None where they are refused.
pub(crate) fn found_in(words: &[Word]) -> Option<Found<'_>>
    ensures { option_map given_in result ≡ given_by words.now nothing_given }
{
    let mut found = Found {
        path: None,
        limit: None,
        page_size: None,
    };
    let mut left = words;
    while let Some((word, behind)) = left.split_first() {
        if is(word, b"--") {
            return found.with_paths(behind);
        }
        (found, left) = found.with_front(word, behind)?;
    }
    Some(found)
}

impl<'a> Found<'a> {
    /// With these words, each of which stands behind `--` and so is a path.
    #[tactic(auto, unfolding(crate::specs::Words::given_as_paths))]
    fn with_paths(self, words: &'a [Word]) -> Option<Found<'a>>
        ensures { option_map given_in result ≡ given_as_paths words.now (given_in self.entry) }
    {
        let mut found = self;
        for word in words {
            found = found.with_path(word.bytes())?;
        }
        Some(found)
    }

    /// With what this word begins: an option, whose value may be the word behind it, or a path. The words that are left come with it.
    fn with_front(self, word: &'a Word, behind: &'a [Word]) -> Option<(Found<'a>, &'a [Word])>
        requires { bytes_eq word.now (codes "--") ≡ false }
        ensures meaning { option_and_then (λ front. given_by front.1.now (given_in front.0)) result ≡ given_by (word.now ∷ behind.now) (given_in self.entry) }
        ensures shorter { IfSome result (λ front. length front.1.now ≤ length behind.now) }
    {
        if is(word, b"--limit") {
            let (value, left) = behind.split_first()?;
            Some((self.with_limit(value.bytes())?, left))
        } else if is(word, b"--page-size") {
            let (value, left) = behind.split_first()?;
            Some((self.with_size(value.bytes())?, left))
        } else {
            Some((self.with_word(word.bytes())?, behind))
        }
    }

    /// With a word by itself: an option with its value behind `=`, or a path.
    #[tactic(auto, unfolding(crate::specs::Words::with_word))]
    fn with_word(self, word: &'a [u8]) -> Option<Found<'a>>
        ensures { option_map given_in result ≡ with_word word.now (given_in self.entry) }
    {
        if let Some(text) = word.strip_prefix(b"--limit=") {
            self.with_limit(text)
        } else if let Some(text) = word.strip_prefix(b"--page-size=") {
            self.with_size(text)
        } else if is_dashed(word) {
            None
        } else {
            self.with_path(word)
        }
    }

    /// With a limit, where none is given yet.
    #[tactic(auto, unfolding(crate::specs::Words::with_limit))]
    fn with_limit(self, text: &[u8]) -> Option<Found<'a>>
        ensures { option_map given_in result ≡ with_limit text.now (given_in self.entry) }
    {
        if self.limit.is_some() {
            return None;
        }
        let limit = limit_in(text)?;
        Some(Found {
            limit: Some(limit),
            ..self
        })
    }

    /// With a page size, where none is given yet.
    #[tactic(auto, unfolding(crate::specs::Words::with_size))]
    fn with_size(self, text: &[u8]) -> Option<Found<'a>>
        ensures { option_map given_in result ≡ with_size text.now (given_in self.entry) }
    {
        if self.page_size.is_some() {
            return None;
        }
        let page_size = page_size_in(text)?;
        Some(Found {
            page_size: Some(page_size),
            ..self
        })
    }

    /// With a path, where none is given yet.
    #[tactic(auto, unfolding(crate::specs::Words::with_path))]
    fn with_path(self, word: &'a [u8]) -> Option<Found<'a>>
        ensures { option_map given_in result ≡ with_path word.now (given_in self.entry) }
    {
        if self.path.is_none() && is_path(word) {
            Some(Found {
                path: Some(word),
                ..self
            })
        } else {
            None
        }
    }
}

/// Whether the word has just these bytes.
pub(crate) fn is(word: &Word, bytes: &[u8]) -> bool
    ensures { result ≡ bytes_eq word.now bytes.now }
{
    word.bytes() == bytes
}

/// Whether the word has more than one byte, of which the first is `-`.
fn is_dashed(word: &[u8]) -> bool
    ensures { result ≡ is_dashed word.now }
{
    match word {
        [first, _, ..] => *first == b'-',
        _ => false,
    }
}

/// Whether the word may be the path of a database.
#[tactic(auto, unfolding(crate::specs::Words::is_path))]
fn is_path(word: &[u8]) -> bool
    ensures { result ≡ is_path word.now }
{
    !word.is_empty() && is_utf8(word)
}

/// Whether the bytes are UTF-8.
fn is_utf8(bytes: &[u8]) -> bool
    ensures { result ≡ is_utf8 bytes.now }
{
    match std::str::from_utf8(bytes) {
        Ok(_) => true,
        Err(_) => false,
    }
}
