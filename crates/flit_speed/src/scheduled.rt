ghost use Rattle.std.specs.Prelude.{◌≡◌, ◌≤◌, [], ◌∷◌, IfOk, length};
ghost use Rattle.std.specs.List.{AllByRecursion};
ghost use Rattle.flit_words.specs.declared.limits.TheConstants.{MOST_CALLS};
ghost use Rattle.flit_sched.specs.Openings.{IsRightItem};
ghost use Rattle.flit_sched.specs.Views.{HasWorker};
ghost use Rattle.flit_speed.specs.Benches.{one_row as the_row};

use crate::Counted;
use crate::openings::{HAS, PUT, on_fresh_words};
use flit_model::{Item, Placed, Reply, Work};
use flit_sched::{Sched, Turn};
use flit_structure::Structure;
use flit_words::{MOST_CALLS, NoMemory};
use std::alloc::Global;

/// A run takes no more items.
const MOST_ITEMS: usize = MOST_CALLS as usize;

/// An insert, and contains of its key as often as is asked for, where a run takes as many.
fn work(alloc: Global, times: u32) -> Result<Work, NoMemory>
    ensures right { IfOk result (λ w. AllByRecursion (IsRightItem the_row) w.items.items) }
    ensures most { IfOk result (λ w. length w.items.items ≤ MOST_CALLS) }
{
    let mut items = Vec::new(alloc);
    items.push(Item::Call(PUT))?;
    for _ in 0..times {
        if items.len() == MOST_ITEMS {
            break;
        }
        items.push(Item::Call(HAS))?;
    }
    Ok(Work { items, stop: None })
}

fn one_work(alloc: Global, work: Work) -> Result<Vec<Work>, NoMemory>
    ensures { IfOk result (λ ws. ws.items ≡ work ∷ []) }
{
    let mut works = Vec::new(alloc);
    works.push(work)?;
    Ok(works)
}

/// Gives worker 1 its turns until it is out, and answers how many events it made.
fn run_out<S: Structure>(run: &mut Sched<S>) -> u64
    requires { HasWorker run.old.run 1 }
{
    for made in 0..u64::MAX {
        if let Turn::Idle = run.turn(1) {
            return made;
        }
    }
    u64::MAX
}

/// How many of the reads have the reply Yes.
fn count_yes(reads: &[Placed]) -> u64 {
    let mut yes = 0u64;
    for read in reads {
        yes = yes.wrapping_add(u64::from(read.entry.reply == Reply::Yes));
    }
    yes
}

/// Contains of the one key, which is there, in a run of one worker.
pub(crate) fn contains(alloc: Global, times: u32) -> Result<Counted, NoMemory> {
    let works = one_work(alloc, work(alloc, times)?)?;
    let (sample, start) = on_fresh_words(alloc)?;
    let mut run = Sched::open(alloc, sample, &start, works)?;
    let events = run_out(&mut run);
    let yes = count_yes(run.placed());
    Ok(Counted { yes, events })
}
