// From a text to its statement, or to the place where it goes wrong.
ghost use Rattle.std.specs.Prelude.{◌≡◌, ℕ, Bool, ◌<◌, ◌^◌, ◌-◌, length, get_or, IfOk, IfErr, Ok};
ghost use Rattle.grammars.specs.Grammar.{Derives};
ghost use Rattle.grammars.specs.Exact.{read_all};
ghost use Rattle.sql_lexemes.specs.Lexemes as lexemes_are;
ghost use Rattle.sql_grammar.specs.declared.statement.Statement as statements;
ghost use Rattle.sql_grammar.specs.declared.statement.Created as texts;
ghost use Rattle.sql_grammar.specs.Statement.{statement_grammar};
ghost use Rattle.sql_grammar.specs.Created.{created_grammar};
ghost use Rattle.sql_exprs.specs.Gives.{Gives};
ghost use Rattle.sql_parse.specs.Text as spec;

use crate::created::created_text;
use crate::statement::statement;
use sql_exprs::ParseError;
use sql_grammar::{Created, Statement};
use sql_lexemes::{Lexeme, Lexemes, lexemes_of};
use std::alloc::{AllocError, Global};
use thiserror::Error;

/// Why a text is not read.
#[derive(Clone, Copy, Debug, Drop, Error, PartialEq, Eq)]
pub enum ParseFault {
    /// The token that begins at this byte, counted from 0, is one that none goes on with; or the text ends there and is not whole.
    /// A byte that begins no token goes on nothing.
    #[error("syntax at {at}")]
    Syntax { at: u32 },
    /// The same, where that token is a number with a point or an exponent.
    #[error("float at {at}")]
    Float { at: u32 },
    #[error("out of memory")]
    Memory,
}

impl From<AllocError> for ParseFault {
    ghost from_gives = { λ _ e. e ≡ Memory };

    ghost use Rattle.sql_parse.specs.declared.text.ParseFault.TheVariants.{Memory};

    fn from(_: AllocError) -> ParseFault {
        ParseFault::Memory
    }
}

fn begins_float(lexemes: &[Lexeme]) -> bool
    ensures { result ≡ spec.begins_float lexemes.now }
{
    match lexemes.split_first() {
        Some((Lexeme::Float, _)) => true,
        _ => false,
    }
}

fn place(text: &[u8], places: &[u32], index: usize) -> u32
    requires { length text.now < 2 ^ 32 }
    ensures { result ≡ get_or places.now index (length text.now) }
{
    match places.get(index) {
        Some(at) => *at,
        None => text.len() as u32,
    }
}

/// The fault of lexemes that go wrong at the first of the last ones.
fn fault_at(text: &[u8], all: &Lexemes, rest: &[Lexeme]) -> ParseFault
    requires { length text.now < 2 ^ 32 }
    ensures { result ≡ spec.fault_at text.now all.now.places all.now.lexemes rest.now }
{
    let index = all.lexemes.len().saturating_sub(rest.len());
    let at = place(text, all.places.as_slice(), index);
    if begins_float(rest) {
        ParseFault::Float { at }
    } else {
        ParseFault::Syntax { at }
    }
}

/// The statement that all of the lexemes are.
fn whole_statement(alloc: Global, lexemes: &[Lexeme]) -> Result<Statement, ParseError<'_>>
    ensures { Gives (λ s. s) result (read_all statement_grammar lexemes.now) }
{
    let (found, rest) = statement(alloc, lexemes)?;
    match rest {
        [] => Ok(found),
        _ => Err(ParseError::At(rest)),
    }
}

/// What all of the lexemes say of an object.
fn whole_object(alloc: Global, lexemes: &[Lexeme]) -> Result<Created, ParseError<'_>>
    ensures { Gives (λ s. s) result (read_all created_grammar lexemes.now) }
{
    let (found, rest) = created_text(alloc, lexemes)?;
    match rest {
        [] => Ok(found),
        _ => Err(ParseError::At(rest)),
    }
}

/// Why reading a text failed.
fn fault_of(text: &[u8], all: &Lexemes, error: ParseError<'_>) -> ParseFault
    requires { length text.now < 2 ^ 32 }
    ensures { spec.Explains result text.now all.now.places all.now.lexemes error.entry }
{
    match error {
        ParseError::At(rest) => fault_at(text, all, rest),
        ParseError::Memory => ParseFault::Memory,
    }
}

fn read_statement(alloc: Global, text: &[u8], all: &Lexemes) -> Result<Statement, ParseFault>
    requires { length text.now < 2 ^ 32 }
    ensures { spec.Follows result text.now all.now.places all.now.lexemes (read_all statement_grammar all.now.lexemes) }
{
    match whole_statement(alloc, all.lexemes.as_slice()) {
        Ok(found) => Ok(found),
        Err(error) => Err(fault_of(text, all, error)),
    }
}

fn read_object(alloc: Global, text: &[u8], all: &Lexemes) -> Result<Created, ParseFault>
    requires { length text.now < 2 ^ 32 }
    ensures { spec.Follows result text.now all.now.places all.now.lexemes (read_all created_grammar all.now.lexemes) }
{
    match whole_object(alloc, all.lexemes.as_slice()) {
        Ok(found) => Ok(found),
        Err(error) => Err(fault_of(text, all, error)),
    }
}

/// The statement that a text is, which may end with a semicolon. Any bytes may be given. It takes time and memory in proportion to the
/// text; after a fault nothing is left.
pub fn parse(alloc: Global, text: &[u8]) -> Result<Statement, ParseFault>
    requires { length text.now < 2 ^ 32 }
    // What is read is a statement of the grammar.
    ensures derived { IfOk result (λ s. Derives statement_grammar (lexemes_are.lexemes_of text.now) s) }
    // Each statement of the grammar is read, and as no other.
    ensures only { (s : statements.Statement) → Derives statement_grammar (lexemes_are.lexemes_of text.now) s → spec.IsRead s result }
    // What is refused goes wrong there.
    ensures fault { IfErr result (λ f. spec.IsFault statement_grammar text.now f) }
    // Each text that goes wrong is refused, at that place and with that kind of fault.
    ensures refused { (at : ℕ) → (float : Bool) → spec.GoesWrongAt statement_grammar text.now at float → spec.IsRefused (spec.fault_of float at) result }
{
    let all = lexemes_of(alloc, text)?;
    read_statement(alloc, text, &all)
}

/// What the CREATE text of a file's table or index says. A table of it may hold more than a statement creates, and its state tells so;
/// any other text is a fault. Any bytes may be given. It takes time and memory in proportion to the text; after a fault nothing is left.
pub fn parse_create(alloc: Global, text: &[u8]) -> Result<Created, ParseFault>
    requires { length text.now < 2 ^ 32 }
    // What is read is a text of the grammar.
    ensures derived { IfOk result (λ s. Derives created_grammar (lexemes_are.lexemes_of text.now) s) }
    // Each text of the grammar is read, and as no other.
    ensures only { (s : texts.Created) → Derives created_grammar (lexemes_are.lexemes_of text.now) s → spec.IsRead s result }
    // What is refused goes wrong there.
    ensures fault { IfErr result (λ f. spec.IsFault created_grammar text.now f) }
    // Each text that goes wrong is refused, at that place and with that kind of fault.
    ensures refused { (at : ℕ) → (float : Bool) → spec.GoesWrongAt created_grammar text.now at float → spec.IsRefused (spec.fault_of float at) result }
{
    let all = lexemes_of(alloc, text)?;
    read_object(alloc, text, &all)
}
