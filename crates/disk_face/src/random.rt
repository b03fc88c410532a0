// Words that nobody can guess.
ghost use Rattle.std.specs.Prelude.{◌≡◌, ℕ, List, Option};
ghost use Rattle.disk_face.specs.Salts.{Gives};

/// A source of words for the salts of log headers. It can't fail.
pub trait Salts {
    /// The words to come, where the source tells them. Of those after the last nothing is known.
    ghost words: { Self → Option (List ℕ) };

    /// The names of the references that the source holds.
    ghost loans: { Self → List ℕ };

    /// The next word.
    fn word(&mut self) -> u32
        ensures word { Gives (words self.old) result (words self.new) }
        ensures loans { loans self.new ≡ loans self.old };
}

impl<W: Salts> Salts for &mut W {
    ghost words = { λ salts. W.words salts.now };

    ghost use Rattle.std.specs.Prelude.{◌∷◌};

    ghost loans = { λ salts. salts.ghost_name ∷ W.loans salts.now };

    fn word(&mut self) -> u32 {
        (**self).word()
    }
}
