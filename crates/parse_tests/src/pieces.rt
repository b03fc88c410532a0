// Tokens and lexemes in short. The notations stand at the tops of `tokens` and `lexemes`.
use crate::note::Note;
use sql_lexemes::{Lexeme, Lexemes};
use sql_text::{TextFault, Token, TokenKind};
use std::alloc::{AllocError, Global};

fn letter(kind: TokenKind) -> &'static [u8] {
    match kind {
        TokenKind::Word => b"w",
        TokenKind::Quoted => b"q",
        TokenKind::Number => b"n",
        TokenKind::Text => b"t",
        TokenKind::Blob => b"b",
        TokenKind::Sign => b"s",
    }
}

impl Note {
    fn token(&mut self, token: &Token) {
        self.space();
        self.put(letter(token.kind));
        self.count(b"", u64::from(token.start));
        self.count(b"-", u64::from(token.end));
    }

    fn all_tokens(&mut self, tokens: &[Token]) {
        for token in tokens {
            self.token(token);
        }
    }

    /// The tokens of a text.
    pub fn tokens(&mut self, found: Result<Vec<Token>, TextFault>) {
        match found {
            Ok(tokens) => self.all_tokens(tokens.as_slice()),
            Err(TextFault::Bad { at }) => self.count(b"bad ", u64::from(at)),
            Err(TextFault::Memory) => self.run_out(),
        }
    }

    fn hex(&mut self, alloc: Global, bytes: &[u8]) {
        self.put(b"blob=");
        for byte in bytes {
            self.formatted(format!(in alloc; "{byte:02x}"));
        }
    }

    fn worded(&mut self, name: Result<String, AllocError>, bytes: &[u8], behind: &[u8]) {
        self.formatted(name);
        self.put(bytes);
        self.put(behind);
    }

    fn int(&mut self, value: i64, alone: bool) {
        self.number(value);
        self.put(if alone { b"!" } else { b"" });
    }

    fn lexeme(&mut self, alloc: Global, lexeme: &Lexeme) {
        match lexeme {
            Lexeme::Symbol(symbol) => self.formatted(format!(in alloc; "{symbol:?}")),
            Lexeme::Name { word, spelling } => {
                self.worded(format!(in alloc; "{word:?}="), spelling.as_slice(), b"")
            }
            Lexeme::Aggregate { function, spelling } => {
                self.worded(
                    format!(in alloc; "{function:?}("),
                    spelling.as_slice(),
                    b")",
                )
            }
            Lexeme::Int { value, alone } => self.int(*value, *alone),
            Lexeme::Least => self.put(b"Least"),
            Lexeme::Huge => self.put(b"Huge"),
            Lexeme::Float => self.put(b"Float"),
            Lexeme::Text(text) => {
                self.put(b"text=");
                self.put(text.as_slice());
            }
            Lexeme::Blob(bytes) => self.hex(alloc, bytes.as_slice()),
            Lexeme::Bad => self.put(b"Bad"),
        }
    }

    fn all_lexemes(&mut self, alloc: Global, all: &Lexemes) {
        for (lexeme, place) in all.lexemes.as_slice().iter().zip(all.places.as_slice()) {
            self.space();
            self.lexeme(alloc, lexeme);
            self.count(b"@", u64::from(*place));
        }
    }

    /// The lexemes of a text, with their places.
    pub fn lexemes(&mut self, alloc: Global, found: Result<Lexemes, AllocError>) {
        match found {
            Ok(all) => self.all_lexemes(alloc, &all),
            Err(AllocError) => self.run_out(),
        }
    }
}
