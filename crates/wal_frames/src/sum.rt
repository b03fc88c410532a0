ghost use Rattle.std.specs.Prelude.{◌≡◌, ◌+◌, ◌%◌, ◌≤◌, length};
ghost use Rattle.log_spec.specs.Checksum.{checksum, word_at};
ghost use Rattle.wal_frames.specs.Front.{words_of};

/// The two words of a checksum over a log. One that runs over nothing is 0, 0.
#[derive(Clone, Copy, Debug, PartialEq, Eq)]
pub struct Sum {
    pub s0: u32,
    pub s1: u32,
}

/// The checksum after some bytes, going on from another.
///
/// `big` says that words are read with the most significant byte first, else with the least. There are 8 bytes, or a
/// multiple.
pub fn sum_step(sum: Sum, big: bool, bytes: &[u8]) -> Sum
    requires { length bytes.now % 8 ≡ 0 }
    ensures { words_of result ≡ checksum big (words_of sum) bytes.now }
{
    let mut s0 = sum.s0;
    let mut s1 = sum.s1;
    for pair in 0..bytes.len() / 8 {
        s0 = s0
            .wrapping_add(word_at(big, bytes, 8 * pair))
            .wrapping_add(s1);
        s1 = s1
            .wrapping_add(word_at(big, bytes, 8 * pair + 4))
            .wrapping_add(s0);
    }
    Sum { s0, s1 }
}

/// The word in the four bytes at `at`.
#[inline(always)]
#[tactic(auto, unfolding(log_spec::specs::Checksum::word_at, page_spec::specs::Bytes::u32_at))]
fn word_at(big: bool, bytes: &[u8], at: usize) -> u32
    requires { at + 4 ≤ length bytes.now }
    ensures { result ≡ word_at big bytes.now at }
{
    let word = [bytes[at], bytes[at + 1], bytes[at + 2], bytes[at + 3]];
    if big {
        u32::from_be_bytes(word)
    } else {
        u32::from_le_bytes(word)
    }
}
