// What the words mean that stand in no quotes, whatever the case of their letters: a table in the order of the alphabet.

ghost use Rattle.std.specs.Prelude.{◌≡◌};
ghost use Rattle.sql_lexemes.specs.Words as spec;

use crate::lexeme::{Function, Symbol, Word};

/// What a word means.
#[derive(Clone, Copy)]
pub enum Meaning {
    /// It is no name.
    Symbol(Symbol),
    /// It is an aggregate's name before an open bracket, and else a name like any other.
    Function(Function),
    /// It is a name.
    Word(Word),
}

/// Whether the word is spelled so, ASCII letters of both cases being the same. The spelling has no small letters.
#[tactic(auto, unfolding(crate::specs::Words::same_word))]
pub fn is(word: &[u8], spelling: &[u8]) -> bool
    ensures { result ≡ spec.same_word word.now spelling.now }
{
    let mut left = word;
    let mut wanted = spelling;
    while let Some((byte, rest)) = left.split_first() {
        let Some((letter, more)) = wanted.split_first() else {
            return false;
        };
        if byte.to_ascii_uppercase() != *letter {
            return false;
        }
        left = rest;
        wanted = more;
    }
    wanted.is_empty()
}

fn a_to_c(word: &[u8]) -> Meaning
    ensures { result ≡ spec.look_up spec.a_to_c word.now }
{
    if is(word, b"AND") {
        Meaning::Symbol(Symbol::And)
    } else if is(word, b"AS") {
        Meaning::Symbol(Symbol::As)
    } else if is(word, b"ASC") {
        Meaning::Word(Word::Asc)
    } else if is(word, b"AUTOINCREMENT") {
        Meaning::Word(Word::Autoincrement)
    } else if is(word, b"BEGIN") {
        Meaning::Word(Word::Begin)
    } else if is(word, b"BLOB") {
        Meaning::Word(Word::Blob)
    } else if is(word, b"BY") {
        Meaning::Word(Word::By)
    } else if is(word, b"CHECK") {
        Meaning::Symbol(Symbol::Check)
    } else if is(word, b"COLLATE") {
        Meaning::Symbol(Symbol::Collate)
    } else if is(word, b"COMMIT") {
        Meaning::Word(Word::Commit)
    } else if is(word, b"CONCURRENT") {
        Meaning::Word(Word::Concurrent)
    } else if is(word, b"CONSTRAINT") {
        Meaning::Symbol(Symbol::Constraint)
    } else if is(word, b"COUNT") {
        Meaning::Function(Function::Count)
    } else if is(word, b"CREATE") {
        Meaning::Symbol(Symbol::Create)
    } else if is(word, b"CROSS") {
        Meaning::Word(Word::Cross)
    } else {
        Meaning::Word(Word::Other)
    }
}

fn d_to_i(word: &[u8]) -> Meaning
    ensures { result ≡ spec.look_up spec.d_to_i word.now }
{
    if is(word, b"DEFAULT") {
        Meaning::Symbol(Symbol::Default)
    } else if is(word, b"DEFERRED") {
        Meaning::Word(Word::Deferred)
    } else if is(word, b"DELETE") {
        Meaning::Symbol(Symbol::Delete)
    } else if is(word, b"DESC") {
        Meaning::Word(Word::Desc)
    } else if is(word, b"DROP") {
        Meaning::Symbol(Symbol::Drop)
    } else if is(word, b"END") {
        Meaning::Word(Word::End)
    } else if is(word, b"FROM") {
        Meaning::Symbol(Symbol::From)
    } else if is(word, b"FULL") {
        Meaning::Word(Word::Full)
    } else if is(word, b"GROUP") {
        Meaning::Symbol(Symbol::Group)
    } else if is(word, b"INDEX") {
        Meaning::Symbol(Symbol::Index)
    } else if is(word, b"INNER") {
        Meaning::Word(Word::Inner)
    } else if is(word, b"INSERT") {
        Meaning::Symbol(Symbol::Insert)
    } else if is(word, b"INTEGER") {
        Meaning::Word(Word::Integer)
    } else if is(word, b"INTO") {
        Meaning::Symbol(Symbol::Into)
    } else if is(word, b"IS") {
        Meaning::Symbol(Symbol::Is)
    } else {
        Meaning::Word(Word::Other)
    }
}

fn j_to_n(word: &[u8]) -> Meaning
    ensures { result ≡ spec.look_up spec.j_to_n word.now }
{
    if is(word, b"JOIN") {
        Meaning::Symbol(Symbol::Join)
    } else if is(word, b"KEY") {
        Meaning::Word(Word::Key)
    } else if is(word, b"LEFT") {
        Meaning::Word(Word::Left)
    } else if is(word, b"LIMIT") {
        Meaning::Symbol(Symbol::Limit)
    } else if is(word, b"MAX") {
        Meaning::Function(Function::Max)
    } else if is(word, b"MIN") {
        Meaning::Function(Function::Min)
    } else if is(word, b"NATURAL") {
        Meaning::Word(Word::Natural)
    } else if is(word, b"NOT") {
        Meaning::Symbol(Symbol::Not)
    } else if is(word, b"NULL") {
        Meaning::Symbol(Symbol::Null)
    } else {
        Meaning::Word(Word::Other)
    }
}

fn o_to_r(word: &[u8]) -> Meaning
    ensures { result ≡ spec.look_up spec.o_to_r word.now }
{
    if is(word, b"OFFSET") {
        Meaning::Word(Word::Offset)
    } else if is(word, b"ON") {
        Meaning::Symbol(Symbol::On)
    } else if is(word, b"OR") {
        Meaning::Symbol(Symbol::Or)
    } else if is(word, b"ORDER") {
        Meaning::Symbol(Symbol::Order)
    } else if is(word, b"OUTER") {
        Meaning::Word(Word::Outer)
    } else if is(word, b"PRIMARY") {
        Meaning::Symbol(Symbol::Primary)
    } else if is(word, b"REFERENCES") {
        Meaning::Symbol(Symbol::References)
    } else if is(word, b"RIGHT") {
        Meaning::Word(Word::Right)
    } else if is(word, b"ROLLBACK") {
        Meaning::Word(Word::Rollback)
    } else {
        Meaning::Word(Word::Other)
    }
}

fn s_to_z(word: &[u8]) -> Meaning
    ensures { result ≡ spec.look_up spec.s_to_z word.now }
{
    if is(word, b"SELECT") {
        Meaning::Symbol(Symbol::Select)
    } else if is(word, b"SET") {
        Meaning::Symbol(Symbol::Set)
    } else if is(word, b"SUM") {
        Meaning::Function(Function::Sum)
    } else if is(word, b"TABLE") {
        Meaning::Symbol(Symbol::Table)
    } else if is(word, b"TEXT") {
        Meaning::Word(Word::Text)
    } else if is(word, b"TRANSACTION") {
        Meaning::Word(Word::Transaction)
    } else if is(word, b"UNIQUE") {
        Meaning::Symbol(Symbol::Unique)
    } else if is(word, b"UPDATE") {
        Meaning::Symbol(Symbol::Update)
    } else if is(word, b"VALUES") {
        Meaning::Symbol(Symbol::Values)
    } else if is(word, b"WHERE") {
        Meaning::Symbol(Symbol::Where)
    } else {
        Meaning::Word(Word::Other)
    }
}
/// The first letter, as a capital; 0 where there is none.
fn first_letter(word: &[u8]) -> u8
    ensures { result ≡ spec.first_letter word.now }
{
    match word.split_first() {
        Some((byte, _)) => byte.to_ascii_uppercase(),
        None => 0,
    }
}

/// What the word means. Only that part of the table is looked at which has its letter.
pub fn look_up(word: &[u8]) -> Meaning
    ensures { result ≡ spec.meaning_of word.now }
{
    let letter = first_letter(word);
    if letter <= b'C' {
        a_to_c(word)
    } else if letter <= b'I' {
        d_to_i(word)
    } else if letter <= b'N' {
        j_to_n(word)
    } else if letter <= b'R' {
        o_to_r(word)
    } else {
        s_to_z(word)
    }
}

/// What a sign means.
pub fn sign(bytes: &[u8]) -> Meaning
    ensures { result ≡ spec.look_up spec.signs bytes.now }
{
    if is(bytes, b",") {
        Meaning::Symbol(Symbol::Comma)
    } else if is(bytes, b"(") {
        Meaning::Symbol(Symbol::Open)
    } else if is(bytes, b")") {
        Meaning::Symbol(Symbol::Close)
    } else if is(bytes, b"=") {
        Meaning::Symbol(Symbol::Equal)
    } else if is(bytes, b"*") {
        Meaning::Symbol(Symbol::Star)
    } else if is(bytes, b".") {
        Meaning::Symbol(Symbol::Dot)
    } else if is(bytes, b";") {
        Meaning::Symbol(Symbol::Semicolon)
    } else if is(bytes, b"<") {
        Meaning::Symbol(Symbol::Less)
    } else if is(bytes, b">") {
        Meaning::Symbol(Symbol::More)
    } else if is(bytes, b"+") {
        Meaning::Symbol(Symbol::Plus)
    } else if is(bytes, b"-") {
        Meaning::Symbol(Symbol::Minus)
    } else if is(bytes, b"/") {
        Meaning::Symbol(Symbol::Slash)
    } else if is(bytes, b"%") {
        Meaning::Symbol(Symbol::Percent)
    } else if is(bytes, b"<=") {
        Meaning::Symbol(Symbol::AtMost)
    } else if is(bytes, b">=") {
        Meaning::Symbol(Symbol::AtLeast)
    } else if is(bytes, b"<>") {
        Meaning::Symbol(Symbol::Unequal)
    } else if is(bytes, b"!=") {
        Meaning::Symbol(Symbol::Unequal)
    } else if is(bytes, b"==") {
        Meaning::Symbol(Symbol::Equal)
    } else {
        Meaning::Word(Word::Other)
    }
}
