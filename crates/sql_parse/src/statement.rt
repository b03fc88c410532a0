// All statements, told apart by their first word.
ghost use Rattle.std.specs.Prelude.{◌≡◌, option_map, None, Some, Ok};
ghost use Rattle.grammars.specs.Exact.{read_all};
ghost use Rattle.grammars.specs.Reading.{next, read};
ghost use Rattle.sql_grammar.specs.Statement as spec;
ghost use Rattle.sql_exprs.specs.Gives.{Gives};

use crate::change::{created, delete, dropped, insert, update};
use engine_spec::Mode;
use sql_exprs::{ParseError, after, after_word, after_word_if, expect};
use sql_grammar::Statement;
use sql_lexemes::{Lexeme, Symbol, Word};
use sql_select::{ended, select};
use std::alloc::Global;

/// Whether a statement begins a CONCURRENT transaction: not yet.
const TAKES_CONCURRENT: bool = false;

/// The end of a statement on transactions.
#[tactic(auto, unfolding(sql_grammar::specs::Statement::closed))]
fn closed(statement: Statement, lexemes: &[Lexeme]) -> (Statement, &[Lexeme])
    ensures { read (spec.closed statement) lexemes.now ≡ Ok (result.0, result.1.now) }
{
    match after_word(Word::Transaction, lexemes) {
        Some(rest) => ended(statement, rest),
        None => ended(statement, lexemes),
    }
}

/// A BEGIN, behind its first word.
#[tactic(auto, unfolding(sql_grammar::specs::Statement::begun))]
fn begun(lexemes: &[Lexeme]) -> (Statement, &[Lexeme])
    ensures { read spec.begun lexemes.now ≡ Ok (result.0, result.1.now) }
{
    if let Some(rest) = after_word(Word::Deferred, lexemes) {
        return closed(Statement::Begin(Mode::Plain), rest);
    }
    match after_word_if(TAKES_CONCURRENT, Word::Concurrent, lexemes) {
        Some(rest) => closed(Statement::Begin(Mode::Concurrent), rest),
        None => closed(Statement::Begin(Mode::Plain), lexemes),
    }
}

/// A statement that begins with a word which is no name.
fn by_symbol(alloc: Global, lexemes: &[Lexeme]) -> Result<(Statement, &[Lexeme]), ParseError<'_>>
    ensures { Gives (λ x. (x.0, x.1.now)) result (read spec.by_symbol lexemes.now) }
{
    if let Some(rest) = after(Symbol::Create, lexemes) {
        return created(alloc, rest);
    }
    if let Some(rest) = after(Symbol::Drop, lexemes) {
        return dropped(alloc, rest);
    }
    if let Some(rest) = after(Symbol::Insert, lexemes) {
        return insert(alloc, rest);
    }
    if let Some(rest) = after(Symbol::Update, lexemes) {
        return update(alloc, rest);
    }
    if let Some(rest) = after(Symbol::Delete, lexemes) {
        return delete(alloc, rest);
    }
    let rest = expect(Symbol::Select, lexemes)?;
    select(alloc, rest)
}

#[tactic(auto, unfolding(sql_grammar::specs::Statement::statement_grammar))]
pub fn statement(
    alloc: Global,
    lexemes: &[Lexeme],
) -> Result<(Statement, &[Lexeme]), ParseError<'_>>
    ensures { Gives (λ x. (x.0, x.1.now)) result (read spec.statement_grammar lexemes.now) }
{
    if let Some(rest) = after_word(Word::Begin, lexemes) {
        return Ok(begun(rest));
    }
    if let Some(rest) = after_word(Word::Commit, lexemes) {
        return Ok(closed(Statement::Commit, rest));
    }
    if let Some(rest) = after_word(Word::End, lexemes) {
        return Ok(closed(Statement::Commit, rest));
    }
    if let Some(rest) = after_word(Word::Rollback, lexemes) {
        return Ok(closed(Statement::Rollback, rest));
    }
    by_symbol(alloc, lexemes)
}
