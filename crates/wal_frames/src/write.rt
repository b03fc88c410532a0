ghost use Rattle.std.specs.Prelude.{◌≡◌, ℕ, IsTrue, if◌then◌else◌};
ghost use Rattle.page_spec.specs.Header.{is_page_size};
ghost use Rattle.log_spec.specs.LogHeader.{is_signed, is_generation, log_fields, big_magic, little_magic};
ghost use Rattle.wal_frames.specs.Front.{front_of, header_in, TellsLogHeader};

use crate::header::{Front, LogHeader};
use crate::read::{BIG_MAGIC, LITTLE_MAGIC, OWN_VERSION, SUMMED_SIZE};
use crate::sum::{Sum, sum_step};
use be_fields::put_u32;

/// The bytes of a header, with a checksum over them in the place of the one that `header` has.
///
/// In a log for which the generation is one, and where the page size is legal, they read back as ours.
pub fn write_log_header(header: &LogHeader) -> [u8; 32]
    ensures signed { IsTrue (is_signed result) }
    ensures told { TellsLogHeader result header.now }
    ensures ours { (log : ℕ) → IsTrue (is_page_size header.now.page_size) → IsTrue (is_generation log header.now.generation)
        → front_of log result ≡ Front.Ours (record header.now { sum = (header_in result).sum }) }
{
    let mut bytes = [0u8; 32];
    put_u32(&mut bytes, 0, magic_of(header.big));
    put_u32(&mut bytes, 4, OWN_VERSION);
    put_u32(&mut bytes, 8, header.page_size);
    put_u32(&mut bytes, 12, header.generation);
    put_u32(&mut bytes, 16, header.salt1);
    put_u32(&mut bytes, 20, header.salt2);
    let sum = sum_step(Sum { s0: 0, s1: 0 }, header.big, &bytes[..SUMMED_SIZE]);
    put_u32(&mut bytes, 24, sum.s0);
    put_u32(&mut bytes, 28, sum.s1);
    bytes
}

/// The number that a log begins with, by the order in which its words are read.
fn magic_of(big: bool) -> u32
    ensures { result ≡ (if big then big_magic else little_magic) }
{
    if big { BIG_MAGIC } else { LITTLE_MAGIC }
}
