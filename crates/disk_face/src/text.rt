// Lists of bytes that contracts see as lists.
ghost use Rattle.std.specs.Prelude.{◌≡◌, [], IfOk};

use std::alloc::{AllocError, Global};
use std::marker::Model;

/// Bytes of any kind, as those of a page. A contract sees the list of them.
#[derive(Debug, Drop)]
pub struct Bytes {
    items: Vec<u8>,
}

impl Model for Bytes {
    ghost use Rattle.std.specs.Prelude.{List, ℕ};

    ghost Value = { List ℕ };

    ghost view = { λ bytes. bytes.items.items };
}

impl Bytes {
    /// No bytes. It takes no memory.
    pub fn new(alloc: Global) -> Bytes
        ensures { result ≡ [] }
    {
        Bytes {
            items: Vec::new(alloc),
        }
    }

    /// A copy of these bytes. The error is want of memory.
    pub fn of(alloc: Global, from: &[u8]) -> Result<Bytes, AllocError>
        ensures { IfOk result (λ bytes. bytes ≡ from.now) }
    {
        let items = Vec::from_slice(alloc, from)?;
        Ok(Bytes { items })
    }

    /// These bytes themselves, which aren't copied.
    pub fn from_vec(items: Vec<u8>) -> Bytes
        ensures { result ≡ items.items }
    {
        Bytes { items }
    }

    /// All the bytes.
    pub fn bytes(&self) -> &[u8]
        ensures { result.now ≡ self.now }
    {
        self.items.as_slice()
    }
}

/// Bytes that are read as text, of whatever encoding. A contract sees the list of them.
#[derive(Debug, Drop)]
pub struct Txt {
    items: Vec<u8>,
}

impl Model for Txt {
    ghost use Rattle.std.specs.Prelude.{List, ℕ};

    ghost Value = { List ℕ };

    ghost view = { λ text. text.items.items };
}

impl Txt {
    /// A copy of these bytes. The error is want of memory.
    pub fn of(alloc: Global, from: &[u8]) -> Result<Txt, AllocError>
        ensures { IfOk result (λ text. text ≡ from.now) }
    {
        let items = Vec::from_slice(alloc, from)?;
        Ok(Txt { items })
    }

    /// These bytes themselves, which aren't copied.
    pub fn from_vec(items: Vec<u8>) -> Txt
        ensures { result ≡ items.items }
    {
        Txt { items }
    }

    /// All the bytes.
    pub fn bytes(&self) -> &[u8]
        ensures { result.now ≡ self.now }
    {
        self.items.as_slice()
    }
}

/// A word of the command line.
pub type Word = Txt;
