// The type of a column. In a statement it is INTEGER, TEXT or BLOB; in a file it is any words, with one or two numbers in brackets.
ghost use Rattle.std.specs.Prelude.{◌≡◌, option_map, None, Some, Ok};
ghost use Rattle.grammars.specs.Reading.{next, read};
ghost use Rattle.sql_grammar.specs.Lexemes as lexemes_are;
ghost use Rattle.sql_grammar.specs.Table as spec;
ghost use Rattle.sql_exprs.specs.Gives.{Gives};

use sql_exprs::{ParseError, after, after_if, begins_with, expect, expect_count};
use sql_grammar::{Affinity, Typed};
use sql_lexemes::{Lexeme, Symbol, Word};

/// Whether the word, which has no capital letter, stands somewhere in the bytes.
fn holds(word: &[u8], bytes: &[u8]) -> bool
    ensures { result ≡ lexemes_are.holds word.now bytes.now }
{
    let mut left = bytes;
    while let Some((_, rest)) = left.split_first() {
        if begins_with(word, left) {
            return true;
        }
        left = rest;
    }
    begins_with(word, left)
}

/// The affinity that the spelling of a word gives.
fn affinity_in(spelling: &[u8]) -> Option<Affinity>
    ensures { result ≡ spec.affinity_in spelling.now }
{
    if holds(b"int", spelling) {
        Some(Affinity::Integer)
    } else if holds(b"char", spelling) || (holds(b"clob", spelling) || holds(b"text", spelling)) {
        Some(Affinity::Text)
    } else if holds(b"blob", spelling) {
        Some(Affinity::Blob)
    } else {
        None
    }
}

/// The first that either has: INTEGER, TEXT, BLOB.
fn stronger(one: Option<Affinity>, other: Option<Affinity>) -> Option<Affinity>
    ensures { result ≡ spec.stronger one other }
{
    match (one, other) {
        (Some(Affinity::Integer), _) | (_, Some(Affinity::Integer)) => Some(Affinity::Integer),
        (Some(Affinity::Text), _) | (_, Some(Affinity::Text)) => Some(Affinity::Text),
        (Some(Affinity::Blob), _) => Some(Affinity::Blob),
        (_, other) => other,
    }
}

fn typed(affinity: Option<Affinity>, integer: bool) -> Typed
    ensures { result ≡ spec.typed affinity integer }
{
    Typed { affinity, integer }
}

/// One of the three types of a statement.
fn plain_type(word: Word) -> Option<Typed>
    ensures { result ≡ spec.plain_type word }
{
    match word {
        Word::Integer => Some(typed(Some(Affinity::Integer), true)),
        Word::Text => Some(typed(Some(Affinity::Text), false)),
        Word::Blob => Some(typed(Some(Affinity::Blob), false)),
        _ => None,
    }
}

/// A word of a type in a file.
fn wide_type(word: Word, spelling: &[u8]) -> Option<Typed>
    ensures { result ≡ spec.wide_type word spelling.now }
{
    match word {
        Word::Quoted => None,
        Word::Integer => Some(typed(affinity_in(spelling), true)),
        _ => Some(typed(affinity_in(spelling), false)),
    }
}

fn type_of(wide: bool, lexeme: &Lexeme) -> Option<Typed>
    ensures { result ≡ spec.type_of wide lexeme.now }
{
    match lexeme {
        Lexeme::Name { word, spelling } => {
            if wide {
                wide_type(*word, spelling.as_slice())
            } else {
                plain_type(*word)
            }
        }
        Lexeme::Aggregate { spelling, .. } => {
            if wide {
                Some(typed(affinity_in(spelling.as_slice()), false))
            } else {
                None
            }
        }
        _ => None,
    }
}

/// The first word of a type at the front, and the lexemes after it.
fn first_word(wide: bool, lexemes: &[Lexeme]) -> Option<(Typed, &[Lexeme])>
    ensures { next (spec.type_of wide) lexemes.now ≡ option_map (λ p. (p.0, p.1.now)) result }
{
    let (first, rest) = lexemes.split_first()?;
    let typed = type_of(wide, first)?;
    Some((typed, rest))
}

/// One more word of a type at the front, and the lexemes after it.
fn next_word(wide: bool, lexemes: &[Lexeme]) -> Option<(Typed, &[Lexeme])>
    ensures { next (spec.more_type_of wide) lexemes.now ≡ option_map (λ p. (p.0, p.1.now)) result }
{
    let (first, rest) = lexemes.split_first()?;
    if !wide {
        return None;
    }
    let typed = type_of(true, first)?;
    Some((typed, rest))
}

fn widened(one: Typed, other: Typed) -> Typed
    ensures { result ≡ spec.widened one other }
{
    typed(stronger(one.affinity, other.affinity), false)
}

/// The words of a type, behind the first.
#[tactic(auto, unfolding(sql_grammar::specs::Table::type_words))]
fn type_words(wide: bool, first: Typed, lexemes: &[Lexeme]) -> (Typed, &[Lexeme])
    ensures { read (spec.type_words wide first) lexemes.now ≡ Ok (result.0, result.1.now) }
{
    let mut all = first;
    let mut rest = lexemes;
    while let Some((other, more)) = next_word(wide, rest) {
        all = widened(all, other);
        rest = more;
    }
    (all, rest)
}

/// `(n)` or `(n, m)`, behind its bracket.
#[tactic(auto, unfolding(sql_grammar::specs::Table::sizes))]
fn sizes(one: Typed, lexemes: &[Lexeme]) -> Result<(Typed, &[Lexeme]), ParseError<'_>>
    ensures { Gives (λ x. (x.0, x.1.now)) result (read (spec.sizes one) lexemes.now) }
{
    let (_, rest) = expect_count(lexemes)?;
    match after(Symbol::Comma, rest) {
        Some(rest) => {
            let (_, rest) = expect_count(rest)?;
            let rest = expect(Symbol::Close, rest)?;
            Ok((typed(one.affinity, false), rest))
        }
        None => {
            let rest = expect(Symbol::Close, rest)?;
            Ok((typed(one.affinity, false), rest))
        }
    }
}

/// A type, behind its first word.
#[tactic(auto, unfolding(sql_grammar::specs::Table::whole_type))]
fn whole_type(
    wide: bool,
    first: Typed,
    lexemes: &[Lexeme],
) -> Result<(Typed, &[Lexeme]), ParseError<'_>>
    ensures { Gives (λ x. (x.0, x.1.now)) result (read (spec.whole_type wide first) lexemes.now) }
{
    let (one, rest) = type_words(wide, first, lexemes);
    match after_if(wide, Symbol::Open, rest) {
        Some(rest) => sizes(one, rest),
        None => Ok((one, rest)),
    }
}

/// The type at the front, or that of a column without one.
#[tactic(auto, unfolding(sql_grammar::specs::Table::optional_type))]
pub fn optional_type(wide: bool, lexemes: &[Lexeme]) -> Result<(Typed, &[Lexeme]), ParseError<'_>>
    ensures { Gives (λ x. (x.0, x.1.now)) result (read (spec.optional_type wide) lexemes.now) }
{
    match first_word(wide, lexemes) {
        Some((first, rest)) => whole_type(wide, first, rest),
        None => Ok((typed(Some(Affinity::Blob), false), lexemes)),
    }
}
