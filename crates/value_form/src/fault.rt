// Why bytes aren't read as a record.
use std::alloc::AllocError;
use thiserror::Error;

/// Why bytes aren't read as a record. Where several causes stand together, the first of this list is told.
#[derive(Clone, Copy, Debug, PartialEq, Eq, Error)]
pub enum RecordFault {
    /// The header's size or a serial type doesn't end inside the header, the header is longer than the record, or a type is
    /// 10 or 11.
    #[error("bad header at {at}")]
    BadHeader {
        /// How many bytes stand before that varint. The header's size stands at 0.
        at: usize,
    },
    /// The values need more bytes than follow the header.
    #[error("{need} bytes of values needed")]
    Short {
        /// How many bytes all values have, or 2^64-1 where these are more.
        need: u64,
    },
    /// A value is a float.
    #[error("float in column {column}")]
    Float {
        /// The first such column, from 0.
        column: u32,
    },
    /// Memory ran out.
    #[error("out of memory")]
    Memory,
}

impl From<AllocError> for RecordFault {
    ghost use Rattle.std.specs.Prelude.{◌≡◌};
    ghost use Rattle.value_form.specs.declared.fault.RecordFault.TheVariants.{Memory};

    ghost from_gives = { λ _ fault. fault ≡ Memory };

    fn from(_refused: AllocError) -> RecordFault {
        RecordFault::Memory
    }
}
