// Columns of a table: its name, its type and its constraints, up to 2,000 of them.
ghost use Rattle.std.specs.Prelude.{◌≡◌, option_map, IfOk, None, Some};
ghost use Rattle.grammars.specs.Reading.{next, read};
ghost use Rattle.sql_lexemes.specs.declared.lexeme.Word.TheVariants as words;
ghost use Rattle.sql_grammar.specs.Lexemes as lexemes_are;
ghost use Rattle.sql_grammar.specs.Table as spec;
ghost use Rattle.sql_exprs.specs.Gives.{Gives};

use crate::types::optional_type;
use disk_face::Txt;
use sql_exprs::{
    ParseError, after, after_word_if, expect, expect_name, expect_new_name, expect_word,
};
use sql_grammar::{Affinity, Column, Constraint, Declared, Draft, TableText, Typed, Use};
use sql_lexemes::{Lexeme, Symbol, Word};
use sqlite_items::Items;
use std::alloc::{AllocError, Global};

/// A table has no more columns.
const MAX_COLUMNS: usize = 2000;

fn known(affinity: Option<Affinity>) -> Affinity
    ensures { result ≡ spec.known affinity }
{
    match affinity {
        Some(affinity) => affinity,
        None => Affinity::Blob,
    }
}

/// A column of this name and type, without constraints.
fn draft(name: Txt, typed: Typed) -> Draft
    ensures { result ≡ spec.draft name typed }
{
    Draft {
        column: Column {
            name,
            affinity: known(typed.affinity),
            not_null: false,
            is_rowid: false,
        },
        typed,
        keyed: false,
        unique: false,
        wider: false,
    }
}

fn constraint_of(wide: bool, keyed: bool, one: &Draft, lexeme: &Lexeme) -> Option<Constraint>
    ensures { result ≡ spec.constraint_of wide keyed one.now lexeme.now }
{
    match lexeme {
        Lexeme::Symbol(Symbol::Primary) => {
            if (keyed || one.keyed) || !(wide || one.typed.integer) {
                None
            } else {
                Some(Constraint::Key)
            }
        }
        Lexeme::Symbol(Symbol::Not) => {
            if one.column.not_null {
                None
            } else {
                Some(Constraint::NotNull)
            }
        }
        Lexeme::Symbol(Symbol::Unique) => {
            if wide && !one.unique {
                Some(Constraint::Unique)
            } else {
                None
            }
        }
        _ => None,
    }
}

/// The constraint at the front, where the column may have it, and the lexemes after it.
fn constraint_at<'a>(
    wide: bool,
    keyed: bool,
    one: &Draft,
    lexemes: &'a [Lexeme],
) -> Option<(Constraint, &'a [Lexeme])>
    ensures { next (spec.constraint_of wide keyed one.now) lexemes.now ≡ option_map (λ p. (p.0, p.1.now)) result }
{
    let (first, rest) = lexemes.split_first()?;
    let constraint = constraint_of(wide, keyed, one, first)?;
    Some((constraint, rest))
}

/// The column as the table's key.
fn as_key(one: Draft, automatic: bool) -> Draft
    ensures { result ≡ spec.as_key one automatic }
{
    let mut one = one;
    one.wider = one.wider || (automatic || !one.typed.integer);
    one.column.is_rowid = one.typed.integer;
    one.keyed = true;
    one
}

fn as_not_null(one: Draft) -> Draft
    ensures { result ≡ spec.as_not_null one }
{
    let mut one = one;
    one.column.not_null = true;
    one
}

fn as_unique(one: Draft) -> Draft
    ensures { result ≡ spec.as_unique one }
{
    let mut one = one;
    one.unique = true;
    one.wider = true;
    one
}

/// A constraint, behind its first word.
#[tactic(auto, unfolding(sql_grammar::specs::Table::constrained))]
fn constrained(
    wide: bool,
    one: Draft,
    constraint: Constraint,
    lexemes: &[Lexeme],
) -> Result<(Draft, &[Lexeme]), ParseError<'_>>
    ensures { Gives (λ x. (x.0, x.1.now)) result (read (spec.constrained wide one constraint) lexemes.now) }
{
    match constraint {
        Constraint::Key => {
            let rest = expect_word(Word::Key, lexemes)?;
            match after_word_if(wide, Word::Autoincrement, rest) {
                Some(rest) => Ok((as_key(one, true), rest)),
                None => Ok((as_key(one, false), rest)),
            }
        }
        Constraint::NotNull => {
            let rest = expect(Symbol::Null, lexemes)?;
            Ok((as_not_null(one), rest))
        }
        Constraint::Unique => Ok((as_unique(one), lexemes)),
    }
}

/// All constraints of a column, where `keyed` says that another column is the key.
#[tactic(auto, unfolding(sql_grammar::specs::Table::constraints))]
fn constraints(
    wide: bool,
    keyed: bool,
    first: Draft,
    lexemes: &[Lexeme],
) -> Result<(Draft, &[Lexeme]), ParseError<'_>>
    ensures { Gives (λ x. (x.0, x.1.now)) result (read (spec.constraints wide keyed first) lexemes.now) }
{
    let mut one = first;
    let mut rest = lexemes;
    while let Some((found, more)) = constraint_at(wide, keyed, &one, rest) {
        (one, rest) = constrained(wide, one, found, more)?;
    }
    Ok((one, rest))
}

/// What a column leaves of its table's use.
fn use_of(affinity: Option<Affinity>, wider: bool) -> Use
    ensures { result ≡ spec.use_of affinity wider }
{
    match affinity {
        None => Use::Unusable,
        Some(_) => { if wider { Use::ReadOnly } else { Use::Usable } }
    }
}

fn worse(one: Use, other: Use) -> Use
    ensures { result ≡ spec.worse one other }
{
    match (one, other) {
        (Use::Unusable, _) | (_, Use::Unusable) => Use::Unusable,
        (Use::ReadOnly, _) => Use::ReadOnly,
        (_, other) => other,
    }
}

/// The table with this column at its end.
fn with_column(table: Declared, one: Draft) -> Result<Declared, AllocError>
    ensures { IfOk result (λ d. d ≡ spec.with_column table one) }
{
    let keyed = table.keyed || one.keyed;
    let state = worse(table.state, use_of(one.typed.affinity, one.wider));
    let mut columns = table.columns;
    columns.push(one.column)?;
    Ok(Declared {
        columns,
        keyed,
        state,
    })
}

/// One more column.
#[tactic(auto, unfolding(sql_grammar::specs::Table::column, sql_grammar::specs::Table::name))]
fn column(
    alloc: Global,
    wide: bool,
    table: Declared,
    lexemes: &[Lexeme],
) -> Result<(Declared, &[Lexeme]), ParseError<'_>>
    ensures { Gives (λ x. (x.0, x.1.now)) result (read (spec.column wide table) lexemes.now) }
{
    let (name, rest) = expect_name(alloc, lexemes)?;
    let (typed, rest) = optional_type(wide, rest)?;
    let (one, rest) = constraints(wide, table.keyed, draft(name, typed), rest)?;
    Ok((with_column(table, one)?, rest))
}

/// The lexemes after a comma, where one more column may follow.
fn after_comma<'a>(table: &Declared, lexemes: &'a [Lexeme]) -> Option<&'a [Lexeme]>
    ensures { next (spec.column_comma table.now) lexemes.now ≡ option_map (λ rest. (tt, rest.now)) result }
{
    if table.columns.len() < MAX_COLUMNS {
        after(Symbol::Comma, lexemes)
    } else {
        None
    }
}

/// The columns behind the first ones.
#[tactic(auto, unfolding(sql_grammar::specs::Table::more_columns))]
fn more_columns(
    alloc: Global,
    wide: bool,
    first: Declared,
    lexemes: &[Lexeme],
) -> Result<(Declared, &[Lexeme]), ParseError<'_>>
    ensures { Gives (λ x. (x.0, x.1.now)) result (read (spec.more_columns wide first) lexemes.now) }
{
    let mut table = first;
    let mut rest = lexemes;
    while let Some(more) = after_comma(&table, rest) {
        (table, rest) = column(alloc, wide, table, more)?;
    }
    Ok((table, rest))
}

fn no_columns(alloc: Global) -> Declared
    ensures { result ≡ spec.no_columns }
{
    Declared {
        columns: Items::new(alloc),
        keyed: false,
        state: Use::Usable,
    }
}

#[tactic(auto, unfolding(sql_grammar::specs::Table::columns))]
fn columns(
    alloc: Global,
    wide: bool,
    lexemes: &[Lexeme],
) -> Result<(Declared, &[Lexeme]), ParseError<'_>>
    ensures { Gives (λ x. (x.0, x.1.now)) result (read (spec.columns wide) lexemes.now) }
{
    let (first, rest) = column(alloc, wide, no_columns(alloc), lexemes)?;
    more_columns(alloc, wide, first, rest)
}

/// What stands behind CREATE TABLE: the name and the columns, `wide` where it is the text of a file's table.
#[tactic(auto, unfolding(sql_grammar::specs::Table::table))]
pub fn table(
    alloc: Global,
    wide: bool,
    lexemes: &[Lexeme],
) -> Result<(TableText, &[Lexeme]), ParseError<'_>>
    ensures { Gives (λ x. (x.0, x.1.now)) result (read (spec.table wide) lexemes.now) }
{
    let (name, rest) = expect_new_name(alloc, lexemes)?;
    let rest = expect(Symbol::Open, rest)?;
    let (declared, rest) = columns(alloc, wide, rest)?;
    let rest = expect(Symbol::Close, rest)?;
    Ok((TableText { name, declared }, rest))
}
