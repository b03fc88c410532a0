// The text of a file's table or index.
ghost use Rattle.std.specs.Prelude.{◌≡◌, None, Some, Ok};
ghost use Rattle.grammars.specs.Reading.{read};
ghost use Rattle.sql_grammar.specs.Created as spec;
ghost use Rattle.sql_exprs.specs.Gives.{Gives};

use sql_exprs::{ParseError, after, expect};
use sql_grammar::{Column, Created, Declared, Use};
use sql_lexemes::{Lexeme, Symbol};
use sql_tables::{index, table};
use sqlite_items::Items;
use std::alloc::Global;

/// The columns, or none where the table is unusable.
fn columns_in(alloc: Global, state: Use, columns: Items<Column>) -> Items<Column>
    ensures { result ≡ spec.columns_in state columns }
{
    match state {
        Use::Unusable => Items::new(alloc),
        _ => columns,
    }
}

fn table_of(alloc: Global, declared: Declared) -> Created
    ensures { result ≡ spec.table_of declared }
{
    Created::Table {
        state: declared.state,
        columns: columns_in(alloc, declared.state, declared.columns),
    }
}

#[tactic(auto, unfolding(sql_grammar::specs::Created::finished))]
fn finished(found: Created, lexemes: &[Lexeme]) -> (Created, &[Lexeme])
    ensures { read (spec.finished found) lexemes.now ≡ Ok (result.0, result.1.now) }
{
    match after(Symbol::Semicolon, lexemes) {
        Some(rest) => (found, rest),
        None => (found, lexemes),
    }
}

#[tactic(auto, unfolding(sql_grammar::specs::Created::index_text))]
fn index_text(
    alloc: Global,
    unique: bool,
    lexemes: &[Lexeme],
) -> Result<(Created, &[Lexeme]), ParseError<'_>>
    ensures { Gives (λ x. (x.0, x.1.now)) result (read (spec.index_text unique) lexemes.now) }
{
    let (text, rest) = index(alloc, lexemes)?;
    let found = Created::Index {
        unique,
        table: text.table,
        columns: text.columns,
    };
    Ok(finished(found, rest))
}

#[tactic(auto, unfolding(sql_grammar::specs::Created::created_grammar))]
pub fn created_text(
    alloc: Global,
    lexemes: &[Lexeme],
) -> Result<(Created, &[Lexeme]), ParseError<'_>>
    ensures { Gives (λ x. (x.0, x.1.now)) result (read spec.created_grammar lexemes.now) }
{
    let rest = expect(Symbol::Create, lexemes)?;
    if let Some(rest) = after(Symbol::Unique, rest) {
        let rest = expect(Symbol::Index, rest)?;
        return index_text(alloc, true, rest);
    }
    if let Some(rest) = after(Symbol::Index, rest) {
        return index_text(alloc, false, rest);
    }
    let rest = expect(Symbol::Table, rest)?;
    let (text, rest) = table(alloc, true, rest)?;
    Ok(finished(table_of(alloc, text.declared), rest))
}
