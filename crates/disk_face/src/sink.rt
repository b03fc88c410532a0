// Where replies go.
ghost use Rattle.std.specs.Prelude.{◌≡◌, ℕ, ◌≤◌, List, Option, length, take, IfOk, OnErr};
ghost use Rattle.disk_face.specs.Faults.{Counts};
ghost use Rattle.disk_face.specs.Sink.{Puts, goes_well};

use crate::Failed;

/// A sink for bytes, as standard output.
pub trait Sink {
    /// The bytes written so far, where the sink tells them.
    ghost written: { Self → Option (List ℕ) };

    /// How often the sink has failed. The count stays once it is 2^64-1.
    ghost faults: { Self → ℕ };

    /// The names of the references that the sink holds.
    ghost loans: { Self → List ℕ };

    /// Writes bytes of the front of the piece, and says how many. 0 for a piece that isn't empty is a fault of the sink.
    /// After `Failed` the bytes written are as before.
    fn put(&mut self, piece: &[u8]) -> Result<usize, Failed>
        ensures within { IfOk result (λ count. count ≤ length piece.now) }
        ensures written { IfOk result (λ count. Puts (written self.old) (take count piece.now) (written self.new)) }
        ensures refused { OnErr result (written self.new ≡ written self.old) }
        ensures faults { Counts (goes_well (length piece.now) result) (faults self.old) (faults self.new) }
        ensures loans { loans self.new ≡ loans self.old };
}

impl<K: Sink> Sink for &mut K {
    ghost written = { λ sink. K.written sink.now };

    ghost faults = { λ sink. K.faults sink.now };

    ghost use Rattle.std.specs.Prelude.{◌∷◌};

    ghost loans = { λ sink. sink.ghost_name ∷ K.loans sink.now };

    fn put(&mut self, piece: &[u8]) -> Result<usize, Failed> {
        (**self).put(piece)
    }
}
