ghost use Rattle.std.specs.Prelude.{◌≡◌, ℕ, true};
ghost use Rattle.flit_marked_laws.specs.Marked.{MarkedLaws};

use flit_structure::Structure;

/// A structure in the words of a list or a hash table. Its inserts link a row and its removes mark
/// one, each by the Exchange by which it takes effect.
pub trait Marked: Structure {
    /// The row that an operation tells.
    ghost row_of: { Self → Self.Op → ℕ };

    /// The row that the Exchange asked for links or marks.
    fn row(&self, op: &Self::Op) -> u32
        requires { (Self.meaning self.now).effect op.now ≡ true }
        ensures { result ≡ row_of self.now op.now };

    /// What the row means, whose marks stand in the words, and which a crash leaves.
    ghost marked: { (s : Self) → MarkedLaws (Self.meaning s) (row_of s) };
}
