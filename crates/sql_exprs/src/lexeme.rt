// One lexeme at the front, by each test of the grammar.
ghost use Rattle.std.specs.Prelude.{◌≡◌, option_map, IfOk, MatchResult, None, Some};
ghost use Rattle.grammars.specs.Grammar.{must, give};
ghost use Rattle.grammars.specs.Reading.{next, read};
ghost use Rattle.sql_grammar.specs.Lexemes as spec;
ghost use Rattle.sql_grammar.specs.Table as table;
ghost use Rattle.sql_exprs.specs.Gives.{Gives};

use disk_face::Txt;
use sql_lexemes::{Lexeme, Symbol, Word};
use std::alloc::{AllocError, Global};

/// Why some lexemes aren't read.
pub enum ParseError<'a> {
    /// They go wrong at the first of these.
    At(&'a [Lexeme]),
    Memory,
}

impl<'a> From<AllocError> for ParseError<'a> {
    ghost from_gives = { λ _ e. e ≡ Memory };

    ghost use Rattle.sql_exprs.specs.declared.lexeme.ParseError.TheVariants.{Memory};

    fn from(_: AllocError) -> ParseError<'a> {
        ParseError::Memory
    }
}

#[tactic(auto, unfolding(sql_grammar::specs::Lexemes::same_symbol))]
fn is(symbol: Symbol, lexeme: &Lexeme) -> bool
    ensures { spec.given result ≡ spec.is symbol lexeme.now }
{
    match lexeme {
        Lexeme::Symbol(found) => *found == symbol,
        _ => false,
    }
}

#[tactic(auto, unfolding(sql_grammar::specs::Lexemes::same_word))]
fn is_word(word: Word, lexeme: &Lexeme) -> bool
    ensures { spec.given result ≡ spec.is_word word lexeme.now }
{
    match lexeme {
        Lexeme::Name { word: found, .. } => *found == word,
        _ => false,
    }
}

/// The lexemes after this symbol, where it stands at the front.
pub fn after(symbol: Symbol, lexemes: &[Lexeme]) -> Option<&[Lexeme]>
    ensures { next (spec.is symbol) lexemes.now ≡ option_map (λ rest. (tt, rest.now)) result }
{
    let (first, rest) = lexemes.split_first()?;
    if is(symbol, first) { Some(rest) } else { None }
}

/// The same, but none unless it may stand there.
pub fn after_if(may: bool, symbol: Symbol, lexemes: &[Lexeme]) -> Option<&[Lexeme]>
    ensures { next (λ t. table.if_wide may (spec.is symbol t)) lexemes.now ≡ option_map (λ rest. (tt, rest.now)) result }
{
    let (first, rest) = lexemes.split_first()?;
    if may && is(symbol, first) {
        Some(rest)
    } else {
        None
    }
}

/// The lexemes after this word, where it stands at the front.
pub fn after_word(word: Word, lexemes: &[Lexeme]) -> Option<&[Lexeme]>
    ensures { next (spec.is_word word) lexemes.now ≡ option_map (λ rest. (tt, rest.now)) result }
{
    let (first, rest) = lexemes.split_first()?;
    if is_word(word, first) {
        Some(rest)
    } else {
        None
    }
}

/// The same, but none unless it may stand there.
pub fn after_word_if(may: bool, word: Word, lexemes: &[Lexeme]) -> Option<&[Lexeme]>
    ensures { next (λ t. table.if_wide may (spec.is_word word t)) lexemes.now ≡ option_map (λ rest. (tt, rest.now)) result }
{
    let (first, rest) = lexemes.split_first()?;
    if may && is_word(word, first) {
        Some(rest)
    } else {
        None
    }
}

/// The lexemes after this symbol, which must stand at the front.
pub fn expect(symbol: Symbol, lexemes: &[Lexeme]) -> Result<&[Lexeme], ParseError<'_>>
    ensures { MatchResult result (λ rest. next (spec.is symbol) lexemes.now ≡ Some (tt, rest.now))
        (λ e. (next (spec.is symbol) lexemes.now ≡ None) × (e ≡ ParseError.At lexemes.entry)) }
{
    match after(symbol, lexemes) {
        Some(rest) => Ok(rest),
        None => Err(ParseError::At(lexemes)),
    }
}

/// The lexemes after this word, which must stand at the front.
pub fn expect_word(word: Word, lexemes: &[Lexeme]) -> Result<&[Lexeme], ParseError<'_>>
    ensures { MatchResult result (λ rest. next (spec.is_word word) lexemes.now ≡ Some (tt, rest.now))
        (λ e. (next (spec.is_word word) lexemes.now ≡ None) × (e ≡ ParseError.At lexemes.entry)) }
{
    match after_word(word, lexemes) {
        Some(rest) => Ok(rest),
        None => Err(ParseError::At(lexemes)),
    }
}

/// The spelling of a name of anything.
fn name_of(lexeme: &Lexeme) -> Option<&[u8]>
    ensures { spec.name_of lexeme.now ≡ option_map (λ name. name.now) result }
{
    match lexeme {
        Lexeme::Name { spelling, .. } => Some(spelling.as_slice()),
        Lexeme::Aggregate { spelling, .. } => Some(spelling.as_slice()),
        _ => None,
    }
}

/// The spelling of a name that begins a term.
fn column_of(lexeme: &Lexeme) -> Option<&[u8]>
    ensures { spec.column_of lexeme.now ≡ option_map (λ name. name.now) result }
{
    match lexeme {
        Lexeme::Name { spelling, .. } => Some(spelling.as_slice()),
        _ => None,
    }
}

/// Whether the word belongs to a join.
fn joins(word: Word) -> bool
    ensures { result ≡ spec.joins word }
{
    match word {
        Word::Cross
        | Word::Full
        | Word::Inner
        | Word::Left
        | Word::Natural
        | Word::Outer
        | Word::Right => true,
        _ => false,
    }
}

/// The spelling of a name behind a table, without AS.
fn alias_of(lexeme: &Lexeme) -> Option<&[u8]>
    ensures { spec.alias_of lexeme.now ≡ option_map (λ name. name.now) result }
{
    match lexeme {
        Lexeme::Name { word, spelling } => {
            if joins(*word) {
                None
            } else {
                Some(spelling.as_slice())
            }
        }
        Lexeme::Aggregate { spelling, .. } => Some(spelling.as_slice()),
        _ => None,
    }
}

fn in_small(byte: u8) -> u8
    ensures { result ≡ spec.in_small byte }
{
    if 64 < byte && byte < 91 {
        byte + 32
    } else {
        byte
    }
}

/// Whether the bytes begin with this word, which has no capital letter.
pub fn begins_with(word: &[u8], bytes: &[u8]) -> bool
    ensures { result ≡ spec.begins_with word.now bytes.now }
{
    let mut letters = word;
    let mut left = bytes;
    while let Some((letter, more)) = letters.split_first() {
        let Some((byte, rest)) = left.split_first() else {
            return false;
        };
        if in_small(*byte) != *letter {
            return false;
        }
        letters = more;
        left = rest;
    }
    true
}

/// The spelling of a name to be created, which doesn't begin with `sqlite_`.
fn new_name_of(lexeme: &Lexeme) -> Option<&[u8]>
    ensures { spec.new_name_of lexeme.now ≡ option_map (λ name. name.now) result }
{
    let name = name_of(lexeme)?;
    if begins_with(b"sqlite_", name) {
        None
    } else {
        Some(name)
    }
}

/// The name at the front, and the lexemes after it.
pub fn name(alloc: Global, lexemes: &[Lexeme]) -> Result<Option<(Txt, &[Lexeme])>, AllocError>
    ensures { IfOk result (λ found. next spec.name_of lexemes.now ≡ option_map (λ p. (p.0, p.1.now)) found) }
{
    let Some((first, rest)) = lexemes.split_first() else {
        return Ok(None);
    };
    match name_of(first) {
        Some(name) => Ok(Some((Txt::of(alloc, name)?, rest))),
        None => Ok(None),
    }
}

/// The name at the front that begins a term, and the lexemes after it.
pub fn column_name(
    alloc: Global,
    lexemes: &[Lexeme],
) -> Result<Option<(Txt, &[Lexeme])>, AllocError>
    ensures { IfOk result (λ found. next spec.column_of lexemes.now ≡ option_map (λ p. (p.0, p.1.now)) found) }
{
    let Some((first, rest)) = lexemes.split_first() else {
        return Ok(None);
    };
    match column_of(first) {
        Some(name) => Ok(Some((Txt::of(alloc, name)?, rest))),
        None => Ok(None),
    }
}

/// The name at the front that a table may have without AS, and the lexemes after it.
pub fn alias(alloc: Global, lexemes: &[Lexeme]) -> Result<Option<(Txt, &[Lexeme])>, AllocError>
    ensures { IfOk result (λ found. next spec.alias_of lexemes.now ≡ option_map (λ p. (p.0, p.1.now)) found) }
{
    let Some((first, rest)) = lexemes.split_first() else {
        return Ok(None);
    };
    match alias_of(first) {
        Some(name) => Ok(Some((Txt::of(alloc, name)?, rest))),
        None => Ok(None),
    }
}

/// The name that must stand at the front, and the lexemes after it.
#[tactic(auto, unfolding(sql_grammar::specs::Table::name))]
pub fn expect_name(alloc: Global, lexemes: &[Lexeme]) -> Result<(Txt, &[Lexeme]), ParseError<'_>>
    ensures { Gives (λ x. (x.0, x.1.now)) result (read table.name lexemes.now) }
{
    match name(alloc, lexemes)? {
        Some((name, rest)) => Ok((name, rest)),
        None => Err(ParseError::At(lexemes)),
    }
}

/// The name to be created that must stand at the front, and the lexemes after it.
pub fn expect_new_name(
    alloc: Global,
    lexemes: &[Lexeme],
) -> Result<(Txt, &[Lexeme]), ParseError<'_>>
    ensures { Gives (λ x. (x.0, x.1.now)) result (read (must spec.new_name_of give) lexemes.now) }
{
    let Some((first, rest)) = lexemes.split_first() else {
        return Err(ParseError::At(lexemes));
    };
    match new_name_of(first) {
        Some(name) => Ok((Txt::of(alloc, name)?, rest)),
        None => Err(ParseError::At(lexemes)),
    }
}

/// The integer without a sign at the front, and the lexemes after it.
pub fn count(lexemes: &[Lexeme]) -> Option<(u64, &[Lexeme])>
    ensures { next spec.count_of lexemes.now ≡ option_map (λ p. (p.0, p.1.now)) result }
{
    let (first, rest) = lexemes.split_first()?;
    let count = count_of(first)?;
    Some((count, rest))
}

fn count_of(lexeme: &Lexeme) -> Option<u64>
    ensures { spec.count_of lexeme.now ≡ result }
{
    match lexeme {
        Lexeme::Int { value, .. } => {
            if *value < 0 {
                None
            } else {
                Some(*value as u64)
            }
        }
        _ => None,
    }
}

/// The integer without a sign that must stand at the front, and the lexemes after it.
pub fn expect_count(lexemes: &[Lexeme]) -> Result<(u64, &[Lexeme]), ParseError<'_>>
    ensures { MatchResult result (λ x. next spec.count_of lexemes.now ≡ Some (x.0, x.1.now))
        (λ e. (next spec.count_of lexemes.now ≡ None) × (e ≡ ParseError.At lexemes.entry)) }
{
    match count(lexemes) {
        Some((count, rest)) => Ok((count, rest)),
        None => Err(ParseError::At(lexemes)),
    }
}

/// The lexemes after 2^63, where it stands at the front.
pub fn after_least(lexemes: &[Lexeme]) -> Option<&[Lexeme]>
    ensures { next spec.least_of lexemes.now ≡ option_map (λ rest. (tt, rest.now)) result }
{
    match lexemes.split_first() {
        Some((Lexeme::Least, rest)) => Some(rest),
        _ => None,
    }
}
