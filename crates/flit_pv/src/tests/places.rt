use flit_place::Placement;

/// One slot for all words.
#[derive(Clone, Copy)]
pub struct OneSlot;

impl Placement for OneSlot {
    ghost use Rattle.std.specs.Prelude.{true, Some};
    ghost use Rattle.std.proofs.Math.Nat.{zero-lt-suc};
    ghost use Rattle.flit_place.specs.Placing.{counts_in_range};

    ghost place = { λ _. record { counted = true; slot = λ _. Some 0 } };

    ghost slots_for = { λ _ _. 1 };

    ghost laws = { λ _. counts_in_range (λ _. 0) (λ _. 1) (λ _ _ _. zero-lt-suc 0) };

    fn slots(&self, _words: u32) -> u32 {
        1
    }

    fn slot_of(&self, _word: u32) -> Option<u32> {
        Some(0)
    }

    fn dress(&self, raw: u64) -> u64 {
        raw
    }

    fn shows(&self, _raw: u64, tag: Option<u64>) -> bool {
        tag != Some(0)
    }
}

/// No slots: the tag is a bit of the word.
#[derive(Clone, Copy)]
pub struct Bits;

impl Placement for Bits {
    ghost use Rattle.std.specs.Prelude.{false, None};
    ghost use Rattle.flit_place.specs.Placing.{has_no_slots};

    ghost place = { λ _. record { counted = false; slot = λ _. None } };

    ghost slots_for = { λ _ _. 0 };

    ghost laws = { λ _. has_no_slots };

    fn slots(&self, _words: u32) -> u32 {
        0
    }

    fn slot_of(&self, _word: u32) -> Option<u32> {
        None
    }

    fn dress(&self, raw: u64) -> u64 {
        (raw >> 33 << 33) + (1 << 32) + raw % (1 << 32)
    }

    fn shows(&self, raw: u64, _tag: Option<u64>) -> bool {
        raw >> 32 & 1 == 1
    }
}
