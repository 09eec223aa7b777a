//! Tags in the words themselves: one bit of each word, and no slots.
#![tactic(auto)]

#[cfg(test)]
mod tests;

use flit_place::Placement;

/// The tag of a word is its bit 32, after link-and-persist (David, Dragojevic, Guerraoui, Zablotchi, USENIX ATC 2018).
#[derive(Clone, Copy, Debug, PartialEq, Eq)]
pub struct Packed;

impl Placement for Packed {
    ghost use Rattle.std.specs.Prelude.{false, None};
    ghost use Rattle.flit_place.specs.Placing.{has_no_slots};

    ghost place = { λ _. record { counted = false; slot = λ _. None } };

    ghost slots_for = { λ _ _. 0 };

    ghost laws = { λ _. has_no_slots };

    fn slots(&self, _words: u32) -> u32 {
        0
    }

    fn slot_of(&self, _word: u32) -> Option<u32> {
        None
    }

    fn dress(&self, raw: u64) -> u64 {
        (raw >> 33 << 33) + (1 << 32) + raw % (1 << 32)
    }

    fn shows(&self, raw: u64, _tag: Option<u64>) -> bool {
        raw >> 32 & 1 == 1
    }
}
