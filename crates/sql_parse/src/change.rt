// Statements that change tables: INSERT, UPDATE, DELETE, CREATE and DROP.
ghost use Rattle.std.specs.Prelude.{◌≡◌, None, Some};
ghost use Rattle.grammars.specs.Reading.{read};
ghost use Rattle.sql_grammar.specs.Statement as spec;
ghost use Rattle.sql_exprs.specs.Gives.{Gives};

use disk_face::Txt;
use sql_exprs::{ParseError, after, expect, expect_name};
use sql_grammar::Statement;
use sql_lexemes::{Lexeme, Symbol};
use sql_select::{ended, filter, names, rows, sets};
use sql_tables::{index, table};
use sqlite_items::Items;
use std::alloc::Global;

#[tactic(auto, unfolding(sql_grammar::specs::Statement::inserted))]
fn inserted(
    alloc: Global,
    table: Txt,
    columns: Items<Txt>,
    lexemes: &[Lexeme],
) -> Result<(Statement, &[Lexeme]), ParseError<'_>>
    ensures { Gives (λ x. (x.0, x.1.now)) result (read (spec.inserted table columns) lexemes.now) }
{
    let rest = expect(Symbol::Values, lexemes)?;
    let (rows, rest) = rows(alloc, rest)?;
    let insert = Statement::Insert {
        table,
        columns,
        rows,
    };
    Ok(ended(insert, rest))
}

/// An INSERT, behind its first word.
#[tactic(auto, unfolding(sql_grammar::specs::Statement::insert, sql_grammar::specs::Table::name))]
pub fn insert(alloc: Global, lexemes: &[Lexeme]) -> Result<(Statement, &[Lexeme]), ParseError<'_>>
    ensures { Gives (λ x. (x.0, x.1.now)) result (read spec.insert lexemes.now) }
{
    let rest = expect(Symbol::Into, lexemes)?;
    let (table, rest) = expect_name(alloc, rest)?;
    match after(Symbol::Open, rest) {
        Some(rest) => {
            let (columns, rest) = names(alloc, rest)?;
            let rest = expect(Symbol::Close, rest)?;
            inserted(alloc, table, columns, rest)
        }
        None => inserted(alloc, table, Items::new(alloc), rest),
    }
}

/// An UPDATE, behind its first word.
#[tactic(auto, unfolding(sql_grammar::specs::Statement::update, sql_grammar::specs::Table::name))]
pub fn update(alloc: Global, lexemes: &[Lexeme]) -> Result<(Statement, &[Lexeme]), ParseError<'_>>
    ensures { Gives (λ x. (x.0, x.1.now)) result (read spec.update lexemes.now) }
{
    let (table, rest) = expect_name(alloc, lexemes)?;
    let rest = expect(Symbol::Set, rest)?;
    let (sets, rest) = sets(alloc, rest)?;
    let (filter, rest) = filter(alloc, rest)?;
    let update = Statement::Update {
        table,
        sets,
        filter,
    };
    Ok(ended(update, rest))
}

/// A DELETE, behind its first word.
#[tactic(auto, unfolding(sql_grammar::specs::Statement::delete, sql_grammar::specs::Table::name))]
pub fn delete(alloc: Global, lexemes: &[Lexeme]) -> Result<(Statement, &[Lexeme]), ParseError<'_>>
    ensures { Gives (λ x. (x.0, x.1.now)) result (read spec.delete lexemes.now) }
{
    let rest = expect(Symbol::From, lexemes)?;
    let (table, rest) = expect_name(alloc, rest)?;
    let (filter, rest) = filter(alloc, rest)?;
    Ok(ended(Statement::Delete { table, filter }, rest))
}

#[tactic(auto, unfolding(sql_grammar::specs::Statement::created_index))]
fn created_index(
    alloc: Global,
    unique: bool,
    lexemes: &[Lexeme],
) -> Result<(Statement, &[Lexeme]), ParseError<'_>>
    ensures { Gives (λ x. (x.0, x.1.now)) result (read (spec.created_index unique) lexemes.now) }
{
    let (text, rest) = index(alloc, lexemes)?;
    let create = Statement::CreateIndex {
        unique,
        name: text.name,
        table: text.table,
        columns: text.columns,
    };
    Ok(ended(create, rest))
}

#[tactic(auto, unfolding(sql_grammar::specs::Statement::created_table))]
fn created_table(
    alloc: Global,
    lexemes: &[Lexeme],
) -> Result<(Statement, &[Lexeme]), ParseError<'_>>
    ensures { Gives (λ x. (x.0, x.1.now)) result (read spec.created_table lexemes.now) }
{
    let (text, rest) = table(alloc, false, lexemes)?;
    let create = Statement::CreateTable {
        name: text.name,
        columns: text.declared.columns,
    };
    Ok(ended(create, rest))
}

/// A CREATE, behind its first word.
#[tactic(auto, unfolding(sql_grammar::specs::Statement::created))]
pub fn created(alloc: Global, lexemes: &[Lexeme]) -> Result<(Statement, &[Lexeme]), ParseError<'_>>
    ensures { Gives (λ x. (x.0, x.1.now)) result (read spec.created lexemes.now) }
{
    if let Some(rest) = after(Symbol::Unique, lexemes) {
        let rest = expect(Symbol::Index, rest)?;
        return created_index(alloc, true, rest);
    }
    match after(Symbol::Index, lexemes) {
        Some(rest) => created_index(alloc, false, rest),
        None => {
            let rest = expect(Symbol::Table, lexemes)?;
            created_table(alloc, rest)
        }
    }
}

/// A DROP, behind its first word.
#[tactic(auto, unfolding(sql_grammar::specs::Statement::dropped, sql_grammar::specs::Table::name))]
pub fn dropped(alloc: Global, lexemes: &[Lexeme]) -> Result<(Statement, &[Lexeme]), ParseError<'_>>
    ensures { Gives (λ x. (x.0, x.1.now)) result (read spec.dropped lexemes.now) }
{
    let rest = expect(Symbol::Table, lexemes)?;
    let (name, rest) = expect_name(alloc, rest)?;
    Ok(ended(Statement::DropTable { name }, rest))
}
