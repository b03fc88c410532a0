// What stands behind CREATE INDEX.
ghost use Rattle.std.specs.Prelude.{◌≡◌, List, ℕ, length, ◌<◌, option_map, None, Some};
ghost use Rattle.grammars.specs.Reading.{next, read};
ghost use Rattle.sql_grammar.specs.Table as spec;
ghost use Rattle.sql_exprs.specs.Gives.{Gives};

use disk_face::Txt;
use sql_exprs::{ParseError, after, expect, expect_name, expect_new_name};
use sql_grammar::IndexText;
use sql_lexemes::{Lexeme, Symbol};
use sqlite_items::Items;
use std::alloc::Global;

/// An index has no more columns.
const MAX_INDEX_COLUMNS: usize = 16;

/// The lexemes after a comma, where one more column may follow.
fn after_comma<'a>(found: &Items<Txt>, lexemes: &'a [Lexeme]) -> Option<&'a [Lexeme]>
    ensures { next (spec.comma_below 16 found.now) lexemes.now ≡ option_map (λ rest. (tt, rest.now)) result }
{
    if found.len() < MAX_INDEX_COLUMNS {
        after(Symbol::Comma, lexemes)
    } else {
        None
    }
}

#[tactic(auto, unfolding(sql_grammar::specs::Table::names_below, grammars::specs::Lists::separated))]
fn columns(alloc: Global, lexemes: &[Lexeme]) -> Result<(Items<Txt>, &[Lexeme]), ParseError<'_>>
    ensures { Gives (λ x. (x.0, x.1.now)) result (read (spec.names_below 16) lexemes.now) }
{
    let (first, mut rest) = expect_name(alloc, lexemes)?;
    let mut found = Items::new(alloc);
    found.push(first)?;
    while let Some(more) = after_comma(&found, rest) {
        let (next, left) = expect_name(alloc, more)?;
        found.push(next)?;
        rest = left;
    }
    Ok((found, rest))
}

/// What stands behind CREATE INDEX: the name, the table and its columns.
#[tactic(auto, unfolding(sql_grammar::specs::Table::index, sql_grammar::specs::Table::name))]
pub fn index(alloc: Global, lexemes: &[Lexeme]) -> Result<(IndexText, &[Lexeme]), ParseError<'_>>
    ensures { Gives (λ x. (x.0, x.1.now)) result (read spec.index lexemes.now) }
{
    let (name, rest) = expect_new_name(alloc, lexemes)?;
    let rest = expect(Symbol::On, rest)?;
    let (table, rest) = expect_name(alloc, rest)?;
    let rest = expect(Symbol::Open, rest)?;
    let (columns, rest) = columns(alloc, rest)?;
    let rest = expect(Symbol::Close, rest)?;
    Ok((
        IndexText {
            name,
            table,
            columns,
        },
        rest,
    ))
}
