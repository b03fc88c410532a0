// Lists with commas, and WHERE.
ghost use Rattle.std.specs.Prelude.{◌≡◌, option_map, IfOk, None, Some};
ghost use Rattle.grammars.specs.Reading.{next, read};
ghost use Rattle.sql_grammar.specs.Statement as spec;
ghost use Rattle.sql_exprs.specs.Gives.{Gives};

use disk_face::Txt;
use sql_exprs::{ParseError, after, expect, expect_name, value};
use sql_grammar::{Expr, Exprs, Place, Set};
use sql_lexemes::{Lexeme, Symbol};
use sqlite_items::Items;
use std::alloc::Global;

/// Expressions without aggregates.
#[tactic(auto, unfolding(sql_grammar::specs::Statement::values, grammars::specs::Lists::separated))]
pub fn values(alloc: Global, lexemes: &[Lexeme]) -> Result<(Exprs, &[Lexeme]), ParseError<'_>>
    ensures { Gives (λ x. (x.0, x.1.now)) result (read spec.values lexemes.now) }
{
    let (first, mut rest) = value(alloc, Place::Plain, lexemes)?;
    let mut found = Exprs::new(alloc);
    found.push(first)?;
    while let Some(more) = after(Symbol::Comma, rest) {
        let (next, left) = value(alloc, Place::Plain, more)?;
        found.push(next)?;
        rest = left;
    }
    Ok((found, rest))
}

/// Names of columns.
#[tactic(auto, unfolding(sql_grammar::specs::Statement::names, grammars::specs::Lists::separated))]
pub fn names(alloc: Global, lexemes: &[Lexeme]) -> Result<(Items<Txt>, &[Lexeme]), ParseError<'_>>
    ensures { Gives (λ x. (x.0, x.1.now)) result (read spec.names lexemes.now) }
{
    let (first, mut rest) = expect_name(alloc, lexemes)?;
    let mut found = Items::new(alloc);
    found.push(first)?;
    while let Some(more) = after(Symbol::Comma, rest) {
        let (next, left) = expect_name(alloc, more)?;
        found.push(next)?;
        rest = left;
    }
    Ok((found, rest))
}

/// The values of a row, in brackets.
#[tactic(auto, unfolding(sql_grammar::specs::Statement::row))]
fn row(alloc: Global, lexemes: &[Lexeme]) -> Result<(Exprs, &[Lexeme]), ParseError<'_>>
    ensures { Gives (λ x. (x.0, x.1.now)) result (read spec.row lexemes.now) }
{
    let rest = expect(Symbol::Open, lexemes)?;
    let (found, rest) = values(alloc, rest)?;
    let rest = expect(Symbol::Close, rest)?;
    Ok((found, rest))
}

/// Rows of values.
#[tactic(auto, unfolding(sql_grammar::specs::Statement::rows, grammars::specs::Lists::separated))]
pub fn rows(alloc: Global, lexemes: &[Lexeme]) -> Result<(Items<Exprs>, &[Lexeme]), ParseError<'_>>
    ensures { Gives (λ x. (x.0, x.1.now)) result (read spec.rows lexemes.now) }
{
    let (first, mut rest) = row(alloc, lexemes)?;
    let mut found = Items::new(alloc);
    found.push(first)?;
    while let Some(more) = after(Symbol::Comma, rest) {
        let (next, left) = row(alloc, more)?;
        found.push(next)?;
        rest = left;
    }
    Ok((found, rest))
}

/// `column = value`
#[tactic(auto, unfolding(sql_grammar::specs::Statement::set, sql_grammar::specs::Table::name))]
fn set(alloc: Global, lexemes: &[Lexeme]) -> Result<(Set, &[Lexeme]), ParseError<'_>>
    ensures { Gives (λ x. (x.0, x.1.now)) result (read spec.set lexemes.now) }
{
    let (column, rest) = expect_name(alloc, lexemes)?;
    let rest = expect(Symbol::Equal, rest)?;
    let (value, rest) = value(alloc, Place::Plain, rest)?;
    Ok((Set { column, value }, rest))
}

/// What an UPDATE sets.
#[tactic(auto, unfolding(sql_grammar::specs::Statement::sets, grammars::specs::Lists::separated))]
pub fn sets(alloc: Global, lexemes: &[Lexeme]) -> Result<(Items<Set>, &[Lexeme]), ParseError<'_>>
    ensures { Gives (λ x. (x.0, x.1.now)) result (read spec.sets lexemes.now) }
{
    let (first, mut rest) = set(alloc, lexemes)?;
    let mut found = Items::new(alloc);
    found.push(first)?;
    while let Some(more) = after(Symbol::Comma, rest) {
        let (next, left) = set(alloc, more)?;
        found.push(next)?;
        rest = left;
    }
    Ok((found, rest))
}

/// The condition behind WHERE, where it stands at the front.
#[tactic(auto, unfolding(sql_grammar::specs::Statement::filter))]
pub fn filter(
    alloc: Global,
    lexemes: &[Lexeme],
) -> Result<(Option<Expr>, &[Lexeme]), ParseError<'_>>
    ensures { Gives (λ x. (x.0, x.1.now)) result (read spec.filter lexemes.now) }
{
    match after(Symbol::Where, lexemes) {
        Some(rest) => {
            let (found, rest) = value(alloc, Place::Plain, rest)?;
            Ok((Some(found), rest))
        }
        None => Ok((None, lexemes)),
    }
}
