ghost use Rattle.std.specs.Prelude.{◌≡◌, ℕ, suc, Some};
ghost use Rattle.flit_model.specs.declared.events.Event.TheVariants.{Load};
ghost use Rattle.flit_structure.specs.Meanings.{Meaning, MayTake};

/// Whoever makes the loads of an operation under way, each as soon as it is asked for.
pub trait Loader<O> {
    /// What a load changes.
    type Seat;

    /// What stays the same throughout a call.
    ghost Run: { Type 0 };

    /// What the structure means that has the operation.
    ghost meaning: { Self → Meaning O };

    /// An operation of a call stands at the seat, after so many events.
    ghost stands: { Self → Run → Self.Seat → O → ℕ → Type 0 };

    /// Makes the load of a word that the operation at the seat asks for, and answers what the word holds.
    fn load(&self, seat: &mut Self::Seat, word: u32) -> u64
        requires asked { (run : Run) × (op : O) × (made : ℕ) × stands self.now run seat.old op made
            × ((meaning self.now).asked op ≡ Some (Load word)) }
        ensures may { (run : Run) (op : O) (made : ℕ) → stands self.now run seat.old op made →
            (meaning self.now).asked op ≡ Some (Load word) → MayTake (meaning self.now) op result }
        ensures stands { (run : Run) (op : O) (made : ℕ) → stands self.now run seat.old op made →
            (meaning self.now).asked op ≡ Some (Load word) →
            stands self.now run seat.new ((meaning self.now).taken op result) (suc made) };
}
