// What a text of SQL is made of, as a grammar sees it: its tokens, with what each stands for.
//
// Each token is one lexeme, and a byte that begins no token is the last one, `Bad`. Where the class of a token depends on the token
// behind it (an aggregate's name before its bracket, an integer without an operator behind it), the lexeme has that class already,
// so a grammar never looks at two tokens.

use sqlite_items::Items;

/// A sign, or a word that is no name unless it stands in quotes.
#[derive(Clone, Copy, Debug, PartialEq, Eq)]
pub enum Symbol {
    Open,
    Close,
    Comma,
    Semicolon,
    Dot,
    Star,
    Slash,
    Percent,
    Plus,
    Minus,
    /// `=` or `==`
    Equal,
    /// `<>` or `!=`
    Unequal,
    Less,
    /// `<=`
    AtMost,
    More,
    /// `>=`
    AtLeast,
    And,
    As,
    Check,
    Collate,
    Constraint,
    Create,
    Default,
    Delete,
    Drop,
    From,
    Group,
    Index,
    Insert,
    Into,
    Is,
    Join,
    Limit,
    Not,
    Null,
    On,
    Or,
    Order,
    Primary,
    References,
    Select,
    Set,
    Table,
    Unique,
    Update,
    Values,
    Where,
}

/// Which word a name is, among those that mean something in some places and may be names in others.
#[derive(Clone, Copy, Debug, PartialEq, Eq)]
pub enum Word {
    /// It stands in quotes, and is none of the words below whatever its spelling.
    Quoted,
    /// Another word than those below.
    Other,
    Asc,
    Autoincrement,
    Begin,
    Blob,
    By,
    Commit,
    Concurrent,
    Cross,
    Deferred,
    Desc,
    End,
    Full,
    Inner,
    Integer,
    Key,
    Left,
    Natural,
    Offset,
    Outer,
    Right,
    Rollback,
    Text,
    Transaction,
}

/// What an aggregate computes.
#[derive(Clone, Copy, Debug, PartialEq, Eq)]
pub enum Function {
    Count,
    Sum,
    Min,
    Max,
}

/// A token, with what it stands for.
#[derive(Debug, Drop)]
pub enum Lexeme {
    Symbol(Symbol),
    /// A name as it is spelled; one in quotes without them, each doubled quote as one.
    Name {
        word: Word,
        spelling: Items<u8>,
    },
    /// An aggregate's name, not in quotes, whose next token is an open bracket. It may also be a name.
    Aggregate {
        function: Function,
        spelling: Items<u8>,
    },
    /// An integer up to 2^63 - 1. It is alone where no token follows, or one that is no infix operator.
    Int {
        value: i64,
        alone: bool,
    },
    /// 2^63, which is an integer directly behind a unary minus alone.
    Least,
    /// An integer above 2^63.
    Huge,
    /// A number with a point or an exponent.
    Float,
    /// A text's bytes, each doubled quote as one.
    Text(Items<u8>),
    /// A blob's bytes.
    Blob(Items<u8>),
    /// A byte that begins no token. It is the last lexeme.
    Bad,
}
