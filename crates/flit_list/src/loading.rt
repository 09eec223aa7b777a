ghost use Rattle.std.specs.Prelude.{◌≡◌, ◌≤◌, ◌+◌, ◌==◌, ℕ, if◌then◌else◌};
ghost use Rattle.flit_pv.specs.VLoads.{v_load_started};
ghost use Rattle.flit_structure.specs.Meanings.{MeanAlike};
ghost use Rattle.flit_list.specs.Lists.{list_of};
ghost use Rattle.flit_list_steps.specs.Operations.{Next};
ghost use Rattle.flit_list_steps.specs.Steps.{carried, hand_at, FitsLink, loaded, confirms};

use crate::inserting::{key_of, link_of};
use crate::lists::List;
use flit_list_steps::{Goal, LinkWord, ListOp, Path, Phase};
use flit_place::Placement;
use flit_pv::VLoad;
use flit_structure::Loader;
use flit_words::Word;

/// A link word that was just loaded.
fn loaded(word: u32, raw: u64) -> LinkWord
    ensures { result ≡ loaded word raw }
{
    LinkWord {
        word,
        raw,
        confirmed: false,
    }
}

/// What a search goes on to at the first key that isn't less than the call's.
fn goal_at(key: u32, wanted: u32) -> Goal
    ensures { result ≡ (if key == wanted then Goal.Found else Goal.Absent) }
{
    if key == wanted {
        Goal::Found
    } else {
        Goal::Absent
    }
}

impl<P: Placement + Drop> List<P> {
    /// The search ends, or a marked row is in its way: the words of its path are confirmed.
    #[inline(always)]
    fn leaves(&self, op: &mut ListOp, path: Path, goal: Goal)
        requires { FitsLink (hand_at op.old.at) }
        ensures { op.new ≡ confirms self.now.layout (P.place self.now.place) self.now.pool
            (record (carried op.old) { path = path }) (hand_at op.old.at) goal }
    {
        op.path = path;
        self.confirms(op, goal);
    }

    /// Goes along the list, from the load of this link word on, as far as so many loads allow, and
    /// answers how many were made. The path stands in variables meanwhile, so that a row costs its
    /// two loads and little else.
    // It stays a function of its own: inside its caller the loop's variables find too few registers,
    // and a row costs a fifth more.
    #[inline(never)]
    pub(crate) fn goes_along<L: Loader<ListOp>>(
        &self,
        op: &mut ListOp,
        mut word: u32,
        loader: &L,
        seat: &mut L::Seat,
        most: u64,
    ) -> u64
        requires alike { MeanAlike (L.meaning loader.now) (list_of P.place self.now) }
        requires at { op.old.at ≡ Next (v_load_started (hand_at op.old.at) word) }
        requires stands { (run : L.Run) × (made : ℕ)
            × L.stands loader.now run seat.old op.old made }
        ensures most { result ≤ most }
        ensures stands { (run : L.Run) (made : ℕ) → L.stands loader.now run seat.old op.old made →
            L.stands loader.now run seat.new op.new (made + result) }
    {
        let wanted = key_of(op.call);
        let mut back = op.path.back;
        let mut pred = op.path.pred;
        let mut row = link_of(pred.raw).row;
        let mut left = most;
        while left >= 2 {
            let raw = loader.load(seat, word);
            let next = loaded(word, raw);
            let link = link_of(raw);
            if link.mark {
                self.leaves(op, Path { back, pred, next }, Goal::Help);
                return most - left + 1;
            }
            let key = Word::unpack(loader.load(seat, self.key_word(row))).value;
            left -= 2;
            if wanted <= key {
                self.leaves(op, Path { back, pred, next }, goal_at(key, wanted));
                return most - left;
            }
            back = Some(pred);
            pred = next;
            row = link.row;
            if row == 0 {
                self.leaves(op, Path { back, pred, next }, Goal::Absent);
                return most - left;
            }
            word = self.link_word(row);
        }
        if left == most {
            return 0;
        }
        let next = pred;
        op.path = Path { back, pred, next };
        op.at = Phase::Next(VLoad::start(word));
        most - left
    }
}
