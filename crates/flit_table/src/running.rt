ghost use Rattle.std.specs.Prelude.{◌≡◌, Some};
ghost use Rattle.flit_structure.specs.Lawful.{IsWithin};
ghost use Rattle.flit_structure.specs.Meanings.{asked_by};
ghost use Rattle.flit_table.specs.Moves.{MayEnter, entering};
ghost use Rattle.flit_table.specs.Steps.{meaning_of, Belongs, After};

use crate::plays::{Making, Starting, Storing};
use crate::views::{Origin, Rule, Start, View};
use atomic_table::{Seat, Table};
use flit_model::Event;
use flit_structure::Structure;
use std::alloc::Global;
use std::marker::{Brand, Model};

/// A structure on words that threads share.
#[derive(Drop)]
pub struct Running<S: Structure> {
    pub(crate) structure: S,
    pub(crate) table: Table<u64, View<S, S::Op>, Origin<S>, Rule<S>, Global>,
    /// Memory for the image at the close, which was that of the words at the opening.
    pub(crate) room: Vec<u64>,
}

impl<S: Structure> Model for Running<S> {
    ghost use Rattle.flit_table.specs.Steps.{Home};

    ghost Value = { Home S };

    ghost use Rattle.std.specs.Coded.{codes};
    ghost use Rattle.atomic_table.specs.Seated.{table_id_coded};

    ghost coded = { Prim.hlevel (codes, table_id_coded, S.code) };

    ghost use Rattle.flit_table.specs.Steps.{IsTableOf};

    ghost view = { λ r. record { origin = r.table.shared.key; table_id = r.table.shared.table_id } };

    ghost invariant = { λ r. IsTableOf (S.meaning r.structure).layout r.structure r.table.shared.key r.table.shared.table_id };
}

impl<S: Structure> Running<S> {
    // Makes one event of the pass's worker, which may begin something with it.
    #[inline(always)]
    fn step_as<J: Starting>(
        &self,
        seat: &mut Seat<u64, View<S, S::Op>>,
        _start: &Start,
        event: Event,
    ) -> u64
        requires pass { Belongs self.now seat.old }
        requires may { MayEnter (meaning_of S.meaning self.now) J.start seat.old.me.0.post }
        requires asked { asked_by (meaning_of S.meaning self.now)
            (entering (meaning_of S.meaning self.now) J.start seat.old.me.0).post.worker ≡ Some
            event }
        requires range { IsWithin (meaning_of S.meaning self.now).layout event }
        ensures table { (seat.new.table_id ≡ seat.old.table_id) × (seat.new.me.1 ≡ seat.old.me.1) }
        ensures made { After (meaning_of S.meaning self.now) self.now.origin
            (entering (meaning_of S.meaning self.now) J.start seat.old.me.0) result seat.new.me.0 }
    {
        let layout = self.structure.layout();
        let _count = self.table.word_count();
        let shared = &self.table.shared;
        match event {
            Event::Load { word } => {
                shared.load::<Making<S, J>>(seat, layout.word_at(word) as usize)
            }
            Event::ReadTag { slot } => {
                shared.load::<Making<S, J>>(seat, layout.slot_at(slot) as usize)
            }
            Event::Raise { slot } => {
                shared.fetch_add::<Making<S, J>>(seat, layout.slot_at(slot) as usize, 1)
            }
            Event::Lower { slot } => {
                shared.fetch_sub::<Making<S, J>>(seat, layout.slot_at(slot) as usize, 1)
            }
            Event::Exchange { word, old, new } => {
                let at = layout.word_at(word) as usize;
                shared.compare_exchange::<Making<S, J>>(seat, at, old, new)
            }
            Event::Persist { word, kept } => {
                shared.fetch_max::<Making<S, J>>(seat, layout.shadow_at(word) as usize, kept)
            }
            Event::Store { word, new } => {
                shared.store::<Storing<S, J>>(seat, layout.word_at(word) as usize, new);
                0
            }
            Event::Draw => {
                shared.fetch_add::<Making<S, J>>(seat, layout.counter_at() as usize, 1)
            }
        }
    }

    // The same, and what it begins is told.
    #[inline(always)]
    pub(crate) fn step(
        &self,
        seat: &mut Seat<u64, View<S, S::Op>>,
        start: &Start,
        event: Event,
    ) -> u64
        requires pass { Belongs self.now seat.old }
        requires may { MayEnter (meaning_of S.meaning self.now) start.now seat.old.me.0.post }
        requires asked { asked_by (meaning_of S.meaning self.now)
            (entering (meaning_of S.meaning self.now) start.now seat.old.me.0).post.worker ≡ Some
            event }
        requires range { IsWithin (meaning_of S.meaning self.now).layout event }
        ensures table { (seat.new.table_id ≡ seat.old.table_id) × (seat.new.me.1 ≡ seat.old.me.1) }
        ensures made { After (meaning_of S.meaning self.now) self.now.origin
            (entering (meaning_of S.meaning self.now) start.now seat.old.me.0) result
            seat.new.me.0 }
    {
        self.step_as::<Brand>(seat, start, event)
    }
}
