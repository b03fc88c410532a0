// Salts that are known beforehand.
ghost use Rattle.std.specs.Prelude.{◌≡◌, ◌≤◌, ℕ, List, [], Some, length, drop};
ghost use Rattle.disk_mem.specs.Words.{next_word, later_words};

use disk_face::Salts;
use std::marker::Model;

/// Words that are given in turn. After the last the word is 0. A contract sees the words to come.
#[derive(Debug, Drop)]
pub struct FixedSalts {
    words: Vec<u32>,
    given: usize,
}

impl Model for FixedSalts {
    ghost Value = { List ℕ };

    ghost view = { λ salts. drop salts.given salts.words.items };

    ghost invariant = { λ salts. salts.given ≤ length salts.words.items };
}

impl FixedSalts {
    /// These words, in turn.
    pub fn new(words: Vec<u32>) -> FixedSalts
        ensures { result ≡ words.items }
    {
        FixedSalts { words, given: 0 }
    }
}

impl Salts for FixedSalts {
    ghost words = { λ salts. Some salts };

    ghost loans = { λ salts. [] };

    fn word(&mut self) -> u32
        ensures word { result ≡ next_word self.old }
        ensures later { self.new ≡ later_words self.old }
    {
        if self.given == self.words.len() {
            return 0;
        }
        let word = self.words[self.given];
        self.given += 1;
        word
    }
}
