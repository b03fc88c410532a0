// Words for salts, drawn from one number.
ghost use Rattle.std.specs.Prelude.{[], None};

use disk_face::Salts;

// The step and the two factors of SplitMix64, by Sebastiano Vigna, who put it into the public domain.
const STEP: u64 = 0x9e37_79b9_7f4a_7c15;

const FIRST_FACTOR: u64 = 0xbf58_476d_1ce4_e5b9;

const SECOND_FACTOR: u64 = 0x94d0_49bb_1331_11eb;

/// Words drawn by SplitMix64 from one number. Who knows the number knows the words.
#[derive(Debug, Drop)]
pub struct NumberSalts {
    state: u64,
}

impl NumberSalts {
    /// Words from this number on.
    pub fn new(start: u64) -> NumberSalts {
        NumberSalts { state: start }
    }
}

impl Salts for NumberSalts {
    ghost words = { λ salts. None };

    ghost loans = { λ salts. [] };

    fn word(&mut self) -> u32 {
        self.state = self.state.wrapping_add(STEP);
        (mixed(self.state) >> 32) as u32
    }
}

// The mixing step of SplitMix64: each bit of the state comes to bear on each bit of the result.
fn mixed(state: u64) -> u64 {
    let first = (state ^ (state >> 30)).wrapping_mul(FIRST_FACTOR);
    let second = (first ^ (first >> 27)).wrapping_mul(SECOND_FACTOR);
    second ^ (second >> 31)
}
