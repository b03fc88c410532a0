// Text, lexemes and places joined: from each token of a text, and the one behind it, its lexeme.

ghost use Rattle.std.specs.Prelude.{◌≡◌, ◌<◌, ◌^◌, length, All, IfOk, not};
ghost use Rattle.std.specs.Option.{ForSome};
ghost use Rattle.sql_text.specs.Cut.{IsWithin};
ghost use Rattle.sql_lexemes.specs.Lexemes as spec;
ghost use Rattle.sql_lexemes.specs.Words as words;

use crate::lexeme::{Lexeme, Symbol, Word};
use crate::values::{hex_bytes, inside, number, quoted};
use crate::words::{Meaning, look_up, sign};
use sql_text::{Token, TokenKind, cut_text};
use sqlite_items::Items;
use std::alloc::{AllocError, Global};

fn bytes_of(text: &[u8], token: Token) -> &[u8]
    requires { IsWithin text.now token }
    ensures { result.now ≡ spec.bytes_of text.now token }
{
    &text[token.start as usize..token.end as usize]
}

fn symbol_in(meaning: Meaning) -> Option<Symbol>
    ensures { result ≡ spec.symbol_in meaning }
{
    match meaning {
        Meaning::Symbol(symbol) => Some(symbol),
        _ => None,
    }
}

/// The symbol that the token is, if there is a token and it is one.
fn symbol_of(text: &[u8], token: Option<Token>) -> Option<Symbol>
    requires { ForSome token (IsWithin text.now) }
    ensures { result ≡ spec.symbol_of text.now token }
{
    let token = token?;
    let bytes = bytes_of(text, token);
    match token.kind {
        TokenKind::Word => symbol_in(look_up(bytes)),
        TokenKind::Sign => symbol_in(sign(bytes)),
        _ => None,
    }
}

fn is_open(symbol: Option<Symbol>) -> bool
    ensures { result ≡ spec.is_open symbol }
{
    match symbol {
        Some(Symbol::Open) => true,
        _ => false,
    }
}

fn is_infix(symbol: Option<Symbol>) -> bool
    ensures { result ≡ spec.is_infix symbol }
{
    match symbol {
        Some(
            Symbol::Or
            | Symbol::And
            | Symbol::Equal
            | Symbol::Unequal
            | Symbol::Is
            | Symbol::Less
            | Symbol::AtMost
            | Symbol::More
            | Symbol::AtLeast
            | Symbol::Plus
            | Symbol::Minus
            | Symbol::Star
            | Symbol::Slash
            | Symbol::Percent,
        ) => true,
        _ => false,
    }
}

fn name(alloc: Global, word: Word, spelling: &[u8]) -> Result<Lexeme, AllocError>
    ensures { IfOk result (λ lexeme. lexeme ≡ spec.name_lexeme word spelling.now) }
{
    let spelling = Items::from_slice(alloc, spelling)?;
    Ok(Lexeme::Name { word, spelling })
}

/// The lexeme of a word, before this token or at the end.
fn word(
    alloc: Global,
    text: &[u8],
    spelling: &[u8],
    next: Option<Token>,
) -> Result<Lexeme, AllocError>
    requires { ForSome next (IsWithin text.now) }
    ensures { IfOk result (λ lexeme. lexeme ≡ spec.word_lexeme (words.meaning_of spelling.now) spelling.now (spec.is_open (spec.symbol_of text.now next))) }
{
    match look_up(spelling) {
        Meaning::Symbol(symbol) => Ok(Lexeme::Symbol(symbol)),
        Meaning::Word(word) => name(alloc, word, spelling),
        Meaning::Function(function) => {
            if is_open(symbol_of(text, next)) {
                let spelling = Items::from_slice(alloc, spelling)?;
                Ok(Lexeme::Aggregate { function, spelling })
            } else {
                name(alloc, Word::Other, spelling)
            }
        }
    }
}

fn sign_lexeme(meaning: Meaning) -> Lexeme
    ensures { result ≡ spec.sign_lexeme meaning }
{
    match meaning {
        Meaning::Symbol(symbol) => Lexeme::Symbol(symbol),
        _ => Lexeme::Bad,
    }
}

/// The lexeme of a token, before this one or at the end.
fn lexeme(
    alloc: Global,
    text: &[u8],
    token: Token,
    next: Option<Token>,
) -> Result<Lexeme, AllocError>
    requires token { IsWithin text.now token }
    requires next { ForSome next (IsWithin text.now) }
    ensures { IfOk result (λ lexeme. lexeme ≡ spec.lexeme_of text.now token next) }
{
    let bytes = bytes_of(text, token);
    match token.kind {
        TokenKind::Word => word(alloc, text, bytes, next),
        TokenKind::Quoted => {
            let spelling = quoted(alloc, b'"', bytes)?;
            Ok(Lexeme::Name {
                word: Word::Quoted,
                spelling,
            })
        }
        TokenKind::Number => Ok(number(bytes, !is_infix(symbol_of(text, next)))),
        TokenKind::Text => Ok(Lexeme::Text(quoted(alloc, b'\'', bytes)?)),
        TokenKind::Blob => Ok(Lexeme::Blob(hex_bytes(alloc, inside(2, bytes))?)),
        TokenKind::Sign => Ok(sign_lexeme(sign(bytes))),
    }
}

fn first_of(tokens: &[Token]) -> Option<Token>
    ensures { result ≡ spec.first_of tokens.now }
{
    match tokens.split_first() {
        Some((token, _)) => Some(*token),
        None => None,
    }
}

/// The lexemes of a text, in order, and the place in the text where each begins.
#[derive(Drop)]
pub struct Lexemes {
    pub lexemes: Items<Lexeme>,
    pub places: Items<u32>,
}

/// The lexemes of these tokens of the text, and last that of the byte which begins none.
#[tactic(auto, unfolding(crate::specs::Lexemes::lexemes_from, crate::specs::Lexemes::places_from))]
fn joined(
    alloc: Global,
    text: &[u8],
    tokens: &[Token],
    bad: Option<u32>,
) -> Result<Lexemes, AllocError>
    requires { All (IsWithin text.now) tokens.now }
    ensures lexemes { IfOk result (λ all. all.lexemes ≡ spec.lexemes_from text.now tokens.now bad) }
    ensures places { IfOk result (λ all. all.places ≡ spec.places_from tokens.now bad) }
{
    let mut lexemes = Vec::with_capacity(alloc, tokens.len())?;
    let mut places = Vec::with_capacity(alloc, tokens.len())?;
    let mut left = tokens;
    while let Some((token, rest)) = left.split_first() {
        lexemes.push(lexeme(alloc, text, *token, first_of(rest))?)?;
        places.push(token.start)?;
        left = rest;
    }
    if let Some(at) = bad {
        lexemes.push(Lexeme::Bad)?;
        places.push(at)?;
    }
    Ok(Lexemes {
        lexemes: Items::from_vec(lexemes),
        places: Items::from_vec(places),
    })
}

/// The lexemes of any bytes: each token's, and last `Bad` where a byte begins no token. The time and the memory that it takes are in
/// proportion to the text. The error is want of memory, after which nothing is left.
#[tactic(auto, unfolding(crate::specs::Lexemes::lexemes_of, crate::specs::Lexemes::places_of))]
pub fn lexemes_of(alloc: Global, text: &[u8]) -> Result<Lexemes, AllocError>
    requires { length text.now < 2 ^ 32 }
    ensures lexemes { IfOk result (λ all. all.lexemes ≡ spec.lexemes_of text.now) }
    ensures places { IfOk result (λ all. all.places ≡ spec.places_of text.now) }
{
    let cut = cut_text(alloc, text)?;
    joined(alloc, text, cut.tokens.as_slice(), cut.bad)
}
