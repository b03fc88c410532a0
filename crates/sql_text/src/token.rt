// What a token is, and why a text has none.

use std::alloc::AllocError;
use thiserror::Error;

/// What kind of token it is.
#[derive(Clone, Copy, Debug, PartialEq, Eq)]
pub enum TokenKind {
    /// A letter or `_`, and then letters, digits and `_`.
    Word,
    /// A name in double quotes.
    Quoted,
    Number,
    /// A text in single quotes.
    Text,
    /// Hexadecimal digits in single quotes behind an `x`.
    Blob,
    /// `( ) , ; . * / % + - = == <> != < <= > >=`
    Sign,
}

/// A token: the bytes from `start` to before `end`.
#[derive(Clone, Copy, Debug, PartialEq, Eq)]
pub struct Token {
    pub kind: TokenKind,
    pub start: u32,
    pub end: u32,
}

/// Why a text isn't cut into tokens.
#[derive(Clone, Copy, Debug, PartialEq, Eq, Error)]
pub enum TextFault {
    /// The first byte that begins no token stands at `at`.
    #[error("no token begins at byte {at}")]
    Bad { at: u32 },
    /// Memory ran out. Nothing is left.
    #[error("out of memory")]
    Memory,
}

impl From<AllocError> for TextFault {
    ghost from_gives = { λ _ e. e ≡ Memory };

    ghost use Rattle.std.specs.Prelude.{◌≡◌};
    ghost use Rattle.sql_text.specs.declared.token.TextFault.TheVariants.{Memory};

    fn from(_: AllocError) -> TextFault {
        TextFault::Memory
    }
}
