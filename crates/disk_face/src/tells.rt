// What a disk tells of itself.
ghost use Rattle.std.specs.Prelude.{ℕ, List, Bool, Option};
ghost use Rattle.disk_face.specs.Steps.{History};

/// What a disk tells of itself. It has no calls: contracts alone see these members. They stand in a trait of their own, so
/// that one clause can speak of all of them at once, as "only reads" does.
///
/// A disk that tells its bytes tells what the files held at first and its steps since. What reads give now, and what a
/// crash may leave now or might have left earlier, are definitions over these. Of a disk that doesn't tell them, a
/// contract knows only when a call has failed.
pub trait DiskTells {
    /// What the files held at first, and the steps since, where the disk tells them.
    ghost told: { Self → Option History };

    /// Whether the files have been named.
    ghost attached: { Self → Bool };

    /// The path by which the files were named, where the disk tells it.
    ghost named: { Self → Option (List ℕ) };

    /// What `journal` answers, where the disk tells it.
    ghost journal_answer: { Self → Option Bool };

    /// How often the disk has failed. The count stays once it is 2^64-1.
    ghost faults: { Self → ℕ };

    /// The names of the references that the disk holds.
    ghost loans: { Self → List ℕ };
}

impl<D: DiskTells> DiskTells for &mut D {
    ghost told = { λ disk. D.told disk.now };

    ghost attached = { λ disk. D.attached disk.now };

    ghost named = { λ disk. D.named disk.now };

    ghost journal_answer = { λ disk. D.journal_answer disk.now };

    ghost faults = { λ disk. D.faults disk.now };

    ghost use Rattle.std.specs.Prelude.{◌∷◌};

    ghost loans = { λ disk. disk.ghost_name ∷ D.loans disk.now };
}
