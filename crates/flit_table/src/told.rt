ghost use Rattle.std.specs.Prelude.{◌≡◌, IfOk};
ghost use Rattle.flit_table.specs.Closing.{known_of, told_by};

use crate::passes::Holder;
use crate::views::Made;
use atomic_table::{Seat, Table, TableRule};
use flit_model::{Ahead, Entry, Image, Placed};
use flit_words::{Layout, NoMemory};
use std::alloc::Global;
use std::collections::LinkedList;
use std::marker::PhantomData;
use std::snapshot::Snapshot;

/// What is known at the end of a running structure. No value of it is ever made.
pub struct Known {
    pub layout: Layout,
    pub ahead: Ahead,
    pub image: Image,
    /// The names that the pass has: those that it owns, and those that have ended in it.
    pub names: LinkedList<u32>,
    /// The updates that the pass has seen, and the completed reads with their positions.
    pub updates: LinkedList<Entry>,
    pub placed: LinkedList<Placed>,
    pub mine: LinkedList<Made>,
    pub events: LinkedList<u32>,
}

/// What the close of a running structure tells. It has no bytes and can't be copied.
#[derive(Drop)]
pub struct Told {
    pub(crate) seat: Seat<u64, Known>,
}

/// What a Told is made of.
#[derive(Drop)]
pub struct Evidence<S, O> {
    pub(crate) layout: Snapshot<Layout>,
    pub(crate) ahead: Snapshot<Ahead>,
    pub(crate) image: Snapshot<Image>,
    pub(crate) held: Snapshot<Holder<S, O>>,
}

/// The rule of a table that keeps nothing but what its first view says.
pub struct Telling<S, O> {
    of: PhantomData<(S, O)>,
}

impl<S, O> TableRule<u64, Known, Evidence<S, O>> for Telling<S, O> {
    ghost use Rattle.flit_table.specs.Closing.{keeps_nothing, known_of};

    ghost holds = { keeps_nothing };

    ghost first = { known_of };
}

/// Tells what was known.
pub(crate) fn tell<S, O>(alloc: Global, evidence: &Evidence<S, O>) -> Result<Told, NoMemory>
    ensures { IfOk result (λ t. told_by t ≡ known_of evidence.now) }
{
    let words = vec![in alloc; 0; 1]?;
    let (_table, seat) = Table::<u64, Known, Evidence<S, O>, Telling<S, O>, Global>::of_words(
        alloc,
        words.as_slice(),
        evidence,
    )?;
    Ok(Told { seat })
}
