// SELECT, part by part.
ghost use Rattle.std.specs.Prelude.{◌≡◌, option_map, IfOk, None, Some};
ghost use Rattle.grammars.specs.Reading.{next, read};
ghost use Rattle.sql_grammar.specs.Statement as spec;
ghost use Rattle.sql_exprs.specs.Gives.{Gives};

use crate::end::ended;
use crate::lists::{filter, values};
use disk_face::Txt;
use sql_exprs::{
    ParseError, after, after_word, alias, count, expect, expect_count, expect_name, expect_word,
    value,
};
use sql_grammar::{Expr, Exprs, Joint, Limits, Named, Place, Select, Sort, Sources, Statement};
use sql_lexemes::{Lexeme, Symbol, Word};
use sqlite_items::Items;
use std::alloc::{AllocError, Global};

/// FROM takes no more tables.
const MAX_TABLES: usize = 8;

/// An expression of the list, whose name behind AS is read and has no effect.
#[tactic(auto, unfolding(sql_grammar::specs::Statement::item, sql_grammar::specs::Table::name))]
fn item(alloc: Global, lexemes: &[Lexeme]) -> Result<(Expr, &[Lexeme]), ParseError<'_>>
    ensures { Gives (λ x. (x.0, x.1.now)) result (read spec.item lexemes.now) }
{
    let (found, rest) = value(alloc, Place::Listed, lexemes)?;
    match after(Symbol::As, rest) {
        Some(rest) => {
            let (_, rest) = expect_name(alloc, rest)?;
            Ok((found, rest))
        }
        None => Ok((found, rest)),
    }
}

#[tactic(auto, unfolding(sql_grammar::specs::Statement::list, grammars::specs::Lists::separated))]
fn list(alloc: Global, lexemes: &[Lexeme]) -> Result<(Exprs, &[Lexeme]), ParseError<'_>>
    ensures { Gives (λ x. (x.0, x.1.now)) result (read spec.list lexemes.now) }
{
    let (first, mut rest) = item(alloc, lexemes)?;
    let mut found = Exprs::new(alloc);
    found.push(first)?;
    while let Some(more) = after(Symbol::Comma, rest) {
        let (next, left) = item(alloc, more)?;
        found.push(next)?;
        rest = left;
    }
    Ok((found, rest))
}

/// The name that the table has in the statement, behind its own.
#[tactic(auto, unfolding(sql_grammar::specs::Statement::named, sql_grammar::specs::Table::name))]
fn named(
    alloc: Global,
    table: Txt,
    lexemes: &[Lexeme],
) -> Result<(Named, &[Lexeme]), ParseError<'_>>
    ensures { Gives (λ x. (x.0, x.1.now)) result (read (spec.named table) lexemes.now) }
{
    if let Some(rest) = after(Symbol::As, lexemes) {
        let (name, rest) = expect_name(alloc, rest)?;
        return Ok((Named { table, name }, rest));
    }
    match alias(alloc, lexemes)? {
        Some((name, rest)) => Ok((Named { table, name }, rest)),
        None => {
            let name = Txt::of(alloc, table.bytes())?;
            Ok((Named { table, name }, lexemes))
        }
    }
}

#[tactic(auto, unfolding(sql_grammar::specs::Statement::source, sql_grammar::specs::Table::name))]
fn source(alloc: Global, lexemes: &[Lexeme]) -> Result<(Named, &[Lexeme]), ParseError<'_>>
    ensures { Gives (λ x. (x.0, x.1.now)) result (read spec.source lexemes.now) }
{
    let (table, rest) = expect_name(alloc, lexemes)?;
    named(alloc, table, rest)
}

fn joint(lexeme: &Lexeme) -> Option<Joint>
    ensures { result ≡ spec.joint lexeme.now }
{
    match lexeme {
        Lexeme::Symbol(Symbol::Comma) => Some(Joint::Comma),
        Lexeme::Symbol(Symbol::Join) => Some(Joint::Join),
        _ => None,
    }
}

/// The comma or JOIN at the front, where one more table may follow, and the lexemes after it.
fn joint_at<'a>(sources: &Sources, lexemes: &'a [Lexeme]) -> Option<(Joint, &'a [Lexeme])>
    ensures { next (spec.joint_of sources.now) lexemes.now ≡ option_map (λ p. (p.0, p.1.now)) result }
{
    let (first, rest) = lexemes.split_first()?;
    if sources.from.len() >= MAX_TABLES {
        return None;
    }
    let joint = joint(first)?;
    Some((joint, rest))
}

fn with_table(sources: Sources, table: Named) -> Result<Sources, AllocError>
    ensures { IfOk result (λ s. s ≡ spec.with_table sources table) }
{
    let on = sources.on;
    let mut from = sources.from;
    from.push(table)?;
    Ok(Sources { from, on })
}

fn with_condition(sources: Sources, condition: Expr) -> Result<Sources, AllocError>
    ensures { IfOk result (λ s. s ≡ spec.with_condition sources condition) }
{
    let from = sources.from;
    let mut on = sources.on;
    on.push(condition)?;
    Ok(Sources { from, on })
}

/// One more table, behind the comma or JOIN.
#[tactic(auto, unfolding(sql_grammar::specs::Statement::joined))]
fn joined(
    alloc: Global,
    sources: Sources,
    joint: Joint,
    lexemes: &[Lexeme],
) -> Result<(Sources, &[Lexeme]), ParseError<'_>>
    ensures { Gives (λ x. (x.0, x.1.now)) result (read (spec.joined sources joint) lexemes.now) }
{
    match joint {
        Joint::Comma => {
            let (table, rest) = source(alloc, lexemes)?;
            Ok((with_table(sources, table)?, rest))
        }
        Joint::Join => {
            let (table, rest) = source(alloc, lexemes)?;
            let rest = expect(Symbol::On, rest)?;
            let (condition, rest) = value(alloc, Place::Plain, rest)?;
            let found = with_table(sources, table)?;
            Ok((with_condition(found, condition)?, rest))
        }
    }
}

#[tactic(auto, unfolding(sql_grammar::specs::Statement::more_sources))]
fn more_sources(
    alloc: Global,
    first: Sources,
    lexemes: &[Lexeme],
) -> Result<(Sources, &[Lexeme]), ParseError<'_>>
    ensures { Gives (λ x. (x.0, x.1.now)) result (read (spec.more_sources first) lexemes.now) }
{
    let mut sources = first;
    let mut rest = lexemes;
    while let Some((found, more)) = joint_at(&sources, rest) {
        (sources, rest) = joined(alloc, sources, found, more)?;
    }
    Ok((sources, rest))
}

fn no_tables(alloc: Global) -> Sources
    ensures { result ≡ spec.no_tables }
{
    Sources {
        from: Items::new(alloc),
        on: Exprs::new(alloc),
    }
}

/// The tables behind FROM.
#[tactic(auto, unfolding(sql_grammar::specs::Statement::sources))]
fn sources(alloc: Global, lexemes: &[Lexeme]) -> Result<(Sources, &[Lexeme]), ParseError<'_>>
    ensures { Gives (λ x. (x.0, x.1.now)) result (read spec.sources lexemes.now) }
{
    let (table, rest) = source(alloc, lexemes)?;
    let first = with_table(no_tables(alloc), table)?;
    more_sources(alloc, first, rest)
}

#[tactic(auto, unfolding(sql_grammar::specs::Statement::optional_sources))]
fn optional_sources(
    alloc: Global,
    lexemes: &[Lexeme],
) -> Result<(Sources, &[Lexeme]), ParseError<'_>>
    ensures { Gives (λ x. (x.0, x.1.now)) result (read spec.optional_sources lexemes.now) }
{
    match after(Symbol::From, lexemes) {
        Some(rest) => sources(alloc, rest),
        None => Ok((no_tables(alloc), lexemes)),
    }
}

#[tactic(auto, unfolding(sql_grammar::specs::Statement::groups))]
fn groups(alloc: Global, lexemes: &[Lexeme]) -> Result<(Exprs, &[Lexeme]), ParseError<'_>>
    ensures { Gives (λ x. (x.0, x.1.now)) result (read spec.groups lexemes.now) }
{
    match after(Symbol::Group, lexemes) {
        Some(rest) => {
            let rest = expect_word(Word::By, rest)?;
            values(alloc, rest)
        }
        None => Ok((Exprs::new(alloc), lexemes)),
    }
}

/// An expression to sort by, and its direction.
#[tactic(auto, unfolding(sql_grammar::specs::Statement::sort))]
fn sort(alloc: Global, lexemes: &[Lexeme]) -> Result<(Sort, &[Lexeme]), ParseError<'_>>
    ensures { Gives (λ x. (x.0, x.1.now)) result (read spec.sort lexemes.now) }
{
    let (value, rest) = value(alloc, Place::Sorted, lexemes)?;
    if let Some(rest) = after_word(Word::Desc, rest) {
        let falling = true;
        return Ok((Sort { value, falling }, rest));
    }
    let falling = false;
    match after_word(Word::Asc, rest) {
        Some(rest) => Ok((Sort { value, falling }, rest)),
        None => Ok((Sort { value, falling }, rest)),
    }
}

#[tactic(auto, unfolding(sql_grammar::specs::Statement::sorts, grammars::specs::Lists::separated))]
fn sorts(alloc: Global, lexemes: &[Lexeme]) -> Result<(Items<Sort>, &[Lexeme]), ParseError<'_>>
    ensures { Gives (λ x. (x.0, x.1.now)) result (read spec.sorts lexemes.now) }
{
    let (first, mut rest) = sort(alloc, lexemes)?;
    let mut found = Items::new(alloc);
    found.push(first)?;
    while let Some(more) = after(Symbol::Comma, rest) {
        let (next, left) = sort(alloc, more)?;
        found.push(next)?;
        rest = left;
    }
    Ok((found, rest))
}

#[tactic(auto, unfolding(sql_grammar::specs::Statement::orders))]
fn orders(alloc: Global, lexemes: &[Lexeme]) -> Result<(Items<Sort>, &[Lexeme]), ParseError<'_>>
    ensures { Gives (λ x. (x.0, x.1.now)) result (read spec.orders lexemes.now) }
{
    match after(Symbol::Order, lexemes) {
        Some(rest) => {
            let rest = expect_word(Word::By, rest)?;
            sorts(alloc, rest)
        }
        None => Ok((Items::new(alloc), lexemes)),
    }
}

fn limits_of(limit: Option<u64>, offset: Option<u64>) -> Limits
    ensures { result ≡ record { limit = limit; offset = offset } }
{
    Limits { limit, offset }
}

#[tactic(auto, unfolding(sql_grammar::specs::Statement::limits))]
fn limits(lexemes: &[Lexeme]) -> Result<(Limits, &[Lexeme]), ParseError<'_>>
    ensures { Gives (λ x. (x.0, x.1.now)) result (read spec.limits lexemes.now) }
{
    let Some(rest) = after(Symbol::Limit, lexemes) else {
        return Ok((limits_of(None, None), lexemes));
    };
    let (limit, rest) = expect_count(rest)?;
    let Some(rest) = after_word(Word::Offset, rest) else {
        return Ok((limits_of(Some(limit), None), rest));
    };
    let (offset, rest) = expect_count(rest)?;
    Ok((limits_of(Some(limit), Some(offset)), rest))
}

/// What stands behind the tables.
#[tactic(auto, unfolding(sql_grammar::specs::Statement::select_from))]
fn select_from(
    alloc: Global,
    all: bool,
    list: Exprs,
    sources: Sources,
    lexemes: &[Lexeme],
) -> Result<(Statement, &[Lexeme]), ParseError<'_>>
    ensures { Gives (λ x. (x.0, x.1.now)) result (read (spec.select_from all list sources) lexemes.now) }
{
    let (filter, rest) = filter(alloc, lexemes)?;
    let (groups, rest) = groups(alloc, rest)?;
    let (orders, rest) = orders(alloc, rest)?;
    let (limits, rest) = limits(rest)?;
    let select = Select {
        all,
        list,
        from: sources.from,
        on: sources.on,
        filter,
        groups,
        orders,
        limit: limits.limit,
        offset: limits.offset,
    };
    Ok(ended(Statement::Select(select), rest))
}

/// A SELECT, behind its first word.
#[tactic(auto, unfolding(sql_grammar::specs::Statement::select))]
pub fn select(alloc: Global, lexemes: &[Lexeme]) -> Result<(Statement, &[Lexeme]), ParseError<'_>>
    ensures { Gives (λ x. (x.0, x.1.now)) result (read spec.select lexemes.now) }
{
    match after(Symbol::Star, lexemes) {
        Some(rest) => {
            let rest = expect(Symbol::From, rest)?;
            let (sources, rest) = sources(alloc, rest)?;
            select_from(alloc, true, Exprs::new(alloc), sources, rest)
        }
        None => {
            let (list, rest) = list(alloc, lexemes)?;
            let (sources, rest) = optional_sources(alloc, rest)?;
            select_from(alloc, false, list, sources, rest)
        }
    }
}
