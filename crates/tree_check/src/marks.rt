// Which pages were met: a bit for each.
ghost use Rattle.std.specs.Prelude.{◌≡◌, ◌+◌, ◌/◌, ◌%◌, ◌^◌, ◌<◌, ◌≤◌, ◌==◌, ◌||◌, ℕ, true, false, length, IfOk, MatchOption, if◌then◌else◌};
ghost use Rattle.std.specs.Int.RustNames.{bit_and};
ghost use Rattle.tree_check.specs.Met.{is_met};

use std::alloc::{AllocError, Global};

/// The pages that were met. The bit of page `p` is bit `p % 8` of byte `p / 8`.
#[derive(Drop)]
pub(crate) struct Marks {
    bits: Vec<u8>,
}

impl Marks {
    /// No page of a database with this last one was met.
    pub(crate) fn new(alloc: Global, last: u32) -> Result<Marks, AllocError>
        ensures room { IfOk result (λ marks. length marks.bits.items ≡ last / 8 + 1) }
        ensures none { IfOk result (λ marks. (page : ℕ) → page ≤ last → is_met marks.bits.items page ≡ false) }
    {
        Ok(Marks {
            bits: vec![in alloc; 0; last as usize / 8 + 1]?,
        })
    }

    /// Whether a page was met.
    pub(crate) fn has(&self, page: u32) -> bool
        requires { page / 8 < length self.now.bits.items }
        ensures { result ≡ is_met self.now.bits.items page }
    {
        has_bit(self.bits[page as usize / 8], bit_of(page))
    }

    /// Marks a page as met.
    pub(crate) fn add(&mut self, page: u32)
        requires { page / 8 < length self.old.bits.items }
        ensures room { length self.new.bits.items ≡ length self.old.bits.items }
        ensures met { is_met self.new.bits.items page ≡ true }
        ensures others { (other : ℕ) → other / 8 < length self.old.bits.items → (other ≡ page → ⊥)
            → is_met self.new.bits.items other ≡ is_met self.old.bits.items other }
    {
        self.bits[page as usize / 8] |= bit_of(page);
    }

    /// The least page from 2 to the last one that wasn't met, if there is one.
    pub(crate) fn first_lost(&self, last: u32) -> Option<u32>
        requires { last / 8 < length self.now.bits.items }
        ensures { MatchOption result
            ((page : ℕ) → 2 ≤ page → page ≤ last → is_met self.now.bits.items page ≡ true)
            (λ lost. (2 ≤ lost) × (lost ≤ last) × (is_met self.now.bits.items lost ≡ false)
            × ((page : ℕ) → 2 ≤ page → page < lost → is_met self.now.bits.items page ≡ true)) }
    {
        let mut page = 2;
        'pages: while page <= last {
            if !self.has(page) {
                return Some(page);
            }
            if page == last {
                return None;
            }
            page += 1;
        }
        None
    }
}

// The bit of a page in its byte.
fn bit_of(page: u32) -> u8
    ensures bit { result ≡ 2 ^ (page % 8) }
    ensures some { result == 0 ≡ false }
{
    match page % 8 {
        0 => 1,
        1 => 2,
        2 => 4,
        3 => 8,
        4 => 16,
        5 => 32,
        6 => 64,
        _ => 128,
    }
}

// Whether a byte has a bit.
fn has_bit(byte: u8, bit: u8) -> bool
    ensures { result ≡ (if bit_and byte bit == 0 then false else true) }
{
    byte & bit != 0
}
