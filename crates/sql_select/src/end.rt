// The end of a statement.
ghost use Rattle.std.specs.Prelude.{◌≡◌, None, Some, Ok};
ghost use Rattle.grammars.specs.Reading.{next, read};
ghost use Rattle.sql_grammar.specs.Statement as spec;

use sql_exprs::after;
use sql_grammar::Statement;
use sql_lexemes::{Lexeme, Symbol};

/// The statement, and the lexemes behind the semicolon that may end it.
#[tactic(auto, unfolding(sql_grammar::specs::Statement::ended))]
pub fn ended(statement: Statement, lexemes: &[Lexeme]) -> (Statement, &[Lexeme])
    ensures { read (spec.ended statement) lexemes.now ≡ Ok (result.0, result.1.now) }
{
    match after(Symbol::Semicolon, lexemes) {
        Some(rest) => (statement, rest),
        None => (statement, lexemes),
    }
}
