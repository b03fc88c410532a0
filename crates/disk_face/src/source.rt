// Where a script comes from.
ghost use Rattle.std.specs.Prelude.{◌≡◌, ℕ, ◌≤◌, List, Option, length, take, is_ok, IfOk, OnErr};
ghost use Rattle.disk_face.specs.Faults.{Counts};
ghost use Rattle.disk_face.specs.Source.{Takes};

use crate::Failed;

/// A source of bytes, as standard input.
pub trait Source {
    /// The bytes that are left, where the source tells them.
    ghost left: { Self → Option (List ℕ) };

    /// How often the source has failed. The count stays once it is 2^64-1.
    ghost faults: { Self → ℕ };

    /// The names of the references that the source holds.
    ghost loans: { Self → List ℕ };

    /// Moves bytes to the front of the buffer, and says how many. 0 into a buffer that isn't empty is the end of the input.
    /// After `Failed` the bytes that are left are as before.
    fn take(&mut self, buf: &mut [u8]) -> Result<usize, Failed>
        ensures within { IfOk result (λ count. count ≤ length buf.old) }
        ensures taken { IfOk result (λ count. Takes (left self.old) (length buf.old) (take count buf.new) (left self.new)) }
        ensures refused { OnErr result (left self.new ≡ left self.old) }
        ensures faults { Counts (is_ok result) (faults self.old) (faults self.new) }
        ensures loans { loans self.new ≡ loans self.old };
}

impl<S: Source> Source for &mut S {
    ghost left = { λ source. S.left source.now };

    ghost faults = { λ source. S.faults source.now };

    ghost use Rattle.std.specs.Prelude.{◌∷◌};

    ghost loans = { λ source. source.ghost_name ∷ S.loans source.now };

    fn take(&mut self, buf: &mut [u8]) -> Result<usize, Failed> {
        (**self).take(buf)
    }
}
