use crate::views::{Start, View};
use atomic_table::{Join, Play, Split};
use flit_structure::Structure;
use std::marker::{Brand, PhantomData};

/// What a step begins. Each call picks it.
pub trait Starting {
    ghost use Rattle.flit_table.specs.declared.views.Start.{Start};

    ghost start: { Start };
}

impl Starting for Brand {
    ghost use Rattle.flit_table.specs.declared.views.Start.TheVariants.{Go};

    ghost start = { Go };
}

/// An event that answers what it found.
pub(crate) struct Making<S, J> {
    of: PhantomData<(S, J)>,
}

impl<S: Structure, J: Starting> Play<u64, View<S, S::Op>> for Making<S, J> {
    ghost use Rattle.flit_table.specs.Steps.{Makes};

    ghost then = { Makes S.meaning J.start };
}

/// A store, which answers 0.
pub(crate) struct Storing<S, J> {
    of: PhantomData<(S, J)>,
}

impl<S: Structure, J: Starting> Play<u64, View<S, S::Op>> for Storing<S, J> {
    ghost use Rattle.flit_table.specs.Steps.{Stores};

    ghost then = { Stores S.meaning J.start };
}

/// How many names a pass gives away.
pub trait Giving {
    ghost use Rattle.std.specs.Prelude.{ℕ};

    ghost give: { ℕ };
}

impl Giving for Brand {
    ghost give = { 0 };
}

pub(crate) struct Cutting<J> {
    of: PhantomData<J>,
}

impl<S, O, J: Giving> Split<View<S, O>> for Cutting<J> {
    ghost use Rattle.flit_table.specs.Views.{keeper, heir};

    ghost left = { keeper J.give };

    ghost right = { heir J.give };
}

/// The other pass begins first what it waits to begin.
pub(crate) struct Moving<S, J> {
    of: PhantomData<(S, J)>,
}

impl<S: Structure, J: Starting> Join<View<S, S::Op>> for Moving<S, J> {
    ghost use Rattle.flit_table.specs.Views.{both, spent};
    ghost use Rattle.flit_table.specs.Steps.{carried};

    ghost both = { λ v w. both v (carried S.meaning J.start w) };

    ghost spent = { spent };
}

/// The load that ends a join.
pub(crate) struct Learning;

impl<S, O> Play<u64, View<S, O>> for Learning {
    ghost use Rattle.flit_table.specs.Steps.{Learns};

    ghost then = { Learns };
}
