ghost use Rattle.std.specs.Prelude.{◌≡◌, ◌+◌, ◌-◌, ◌<◌, ◌≤◌, ◌^◌, []};
ghost use Rattle.flit_table.specs.Moves.{MayEnter, entering};
ghost use Rattle.flit_table.specs.Steps.{Belongs, meaning_of};
ghost use Rattle.flit_table.specs.Passes.{own_names, waits_in, HasGiven, IsGiven, HasTaken, BelongsTo, MayWork};
ghost use Rattle.flit_table.specs.Views.{keeper, heir, both};

use crate::passes::{Holder, Pass, Rest};
use crate::plays::{Cutting, Giving, Learning, Moving, Starting};
use crate::running::Running;
use crate::views::{Start, View};
use atomic_table::Seat;
use flit_pv::Hand;
use flit_structure::Structure;
use std::marker::Brand;

impl<S: Structure> Running<S> {
    fn cut_as<J: Giving>(
        &self,
        seat: &mut Seat<u64, View<S, S::Op>>,
        _give: u32,
    ) -> Seat<u64, View<S, S::Op>>
        requires pass { Belongs self.now seat.old }
        requires give { (0 < J.give) × (J.give < seat.old.me.0.names) }
        ensures old { (seat.new.table_id ≡ seat.old.table_id)
            × (seat.new.me ≡ (keeper J.give seat.old.me.0, seat.old.me.1)) }
        ensures new { (result.table_id ≡ seat.old.table_id)
            × (result.me ≡ (heir J.give seat.old.me.0, [])) }
    {
        self.table.shared.split_seat::<Cutting<J>>(seat)
    }

    fn cut(&self, seat: &mut Seat<u64, View<S, S::Op>>, give: u32) -> Seat<u64, View<S, S::Op>>
        requires pass { Belongs self.now seat.old }
        requires give { (0 < give) × (give < seat.old.me.0.names) }
        ensures old { (seat.new.table_id ≡ seat.old.table_id)
            × (seat.new.me ≡ (keeper give seat.old.me.0, seat.old.me.1)) }
        ensures new { (result.table_id ≡ seat.old.table_id)
            × (result.me ≡ (heir give seat.old.me.0, [])) }
    {
        self.cut_as::<Brand>(seat, give)
    }

    /// A new pass, which owns the last so many names, has the first of them, and has seen what this pass has seen.
    pub fn split(&self, pass: &mut Pass<S>, give: u32) -> Pass<S>
        requires pass { MayWork S.meaning self.now pass.old }
        requires give { (1 ≤ give) × (give < own_names pass.old) }
        ensures old { BelongsTo S.meaning self.now pass.new }
        ensures keeps { HasGiven give pass.old pass.new }
        ensures new { BelongsTo S.meaning self.now result }
        ensures gives { IsGiven give pass.old result }
    {
        let _layout = self.structure.layout();
        let keep = pass.held.names - give;
        let name = small_sum(pass.held.name, keep);
        let seat = self.cut(&mut pass.held.seat, give);
        pass.held.names = keep;
        Pass {
            held: Holder {
                seat,
                name,
                names: give,
                calls: 0,
                rest: Rest::Hand(Hand::first(name)),
            },
        }
    }

    fn join_as<J: Starting>(
        &self,
        seat: &mut Seat<u64, View<S, S::Op>>,
        other: Seat<u64, View<S, S::Op>>,
        _start: &Start,
    )
        requires pass { Belongs self.now seat.old }
        requires other { Belongs self.now other }
        requires waits { MayEnter (meaning_of S.meaning self.now) J.start other.me.0.post }
        ensures { (seat.new.table_id ≡ seat.old.table_id)
            × (seat.new.me ≡ (
              both seat.old.me.0 (entering (meaning_of S.meaning self.now) J.start
                  other.me.0),
              seat.old.me.1,
            )) }
    {
        self.table.shared.join_seat::<Moving<S, J>>(seat, other);
    }

    fn join_seats(
        &self,
        seat: &mut Seat<u64, View<S, S::Op>>,
        other: Seat<u64, View<S, S::Op>>,
        start: &Start,
    )
        requires pass { Belongs self.now seat.old }
        requires other { Belongs self.now other }
        requires waits { MayEnter (meaning_of S.meaning self.now) start.now other.me.0.post }
        ensures { (seat.new.table_id ≡ seat.old.table_id)
            × (seat.new.me ≡ (
              both seat.old.me.0 (entering (meaning_of S.meaning self.now) start.now
                  other.me.0),
              seat.old.me.1,
            )) }
    {
        self.join_as::<Brand>(seat, other, start);
    }

    /// The pass takes in what another has seen and made, and what it keeps.
    pub fn join(&self, pass: &mut Pass<S>, other: Pass<S>)
        requires pass { BelongsTo S.meaning self.now pass.old }
        requires other { BelongsTo S.meaning self.now other }
        ensures pass { BelongsTo S.meaning self.now pass.new }
        ensures taken { HasTaken (meaning_of S.meaning self.now) other pass.old pass.new }
    {
        let Pass { held } = other;
        let Holder {
            seat,
            name: _,
            names: _,
            calls: _,
            rest,
        } = held;
        let start = start_of(&rest);
        self.join_seats(&mut pass.held.seat, seat, &start);
        self.table.shared.load::<Learning>(&mut pass.held.seat, 0);
    }
}

// What a pass waits to begin.
fn start_of<O>(rest: &Rest<O>) -> Start
    ensures { result ≡ waits_in rest.now }
{
    match rest {
        Rest::Hand(_) => Start::Go,
        Rest::Ended(_) => Start::Go,
        Rest::Stopped { start, .. } => *start,
    }
}

// Names are small.
fn small_sum(a: u32, b: u32) -> u32
    requires { a + b < 2 ^ 32 }
    ensures { result ≡ a + b }
{
    a + b
}
