ghost use Rattle.std.specs.Prelude.{◌≡◌, ◌≤◌, IfOk};
ghost use Rattle.flit_tree_heap.specs.Views.{IsTreeLayout};
ghost use Rattle.flit_speed.specs.TreeSearches.{IsTreeStart, deep_tree};

use crate::Counted;
use crate::benches::Bench;
use crate::searches::{calls, fill, fill_shared};
use crate::shared::answers;
use flit_hashed::Hashed;
use flit_model::{Call, Machine, Recovered};
use flit_recover::fresh;
use flit_rows::Pool;
use flit_sched::recovered_opens;
use flit_table::Running;
use flit_tree::Tree;
use flit_words::{GREATEST_VERSION, Kind, Layout, NoMemory};
use std::alloc::Global;

/// A tree for so many keys, each with a leaf and an inner row, whose words have one of eight slots each.
fn tree_of(keys: u32) -> Layout
    requires least { 1 ≤ keys }
    requires most { keys ≤ 100 }
    ensures layout { result ≡ deep_tree keys }
    ensures tree { IsTreeLayout result }
{
    Layout {
        kind: Kind::Tree,
        buckets: 0,
        rows: 2 * keys,
        slots: 8,
        workers: 1,
        limit: GREATEST_VERSION,
        values: false,
    }
}

/// The tree for so many keys, and what recovery finds in its fresh words.
fn on_fresh_words(alloc: Global, keys: u32) -> Result<(Tree<Hashed>, Recovered), NoMemory>
    requires least { 1 ≤ keys }
    requires most { keys ≤ 100 }
    ensures { IfOk result (λ r. IsTreeStart keys r.0 r.1) }
{
    recovered_opens();
    let layout = tree_of(keys);
    let start = fresh(alloc, &layout)?;
    let pool = Pool::new(alloc, &start.free)?;
    let tree = Tree::new(layout, Hashed { slots: 8 }, pool);
    Ok((tree, start))
}

/// A tree whose inner rows are one path, since its keys came in falling order, and contains of the least key, whose
/// leaf is the deepest.
pub(crate) fn alone(alloc: Global, keys: u32, times: u32) -> Result<Counted, NoMemory>
    requires least { 1 ≤ keys }
    requires most { keys ≤ 100 }
{
    let (tree, _start) = on_fresh_words(alloc, keys)?;
    let machine = Machine::new(alloc, &tree_of(keys))?;
    let mut bench = Bench::open(tree, machine, Call::Insert(keys, 0));
    fill(&mut bench, keys - 1);
    let before = bench.events;
    let yes = calls(&mut bench, 1, times);
    Ok(Counted {
        yes,
        events: bench.events.wrapping_sub(before),
    })
}

/// The same on words that threads share.
pub(crate) fn shared(alloc: Global, keys: u32, times: u32) -> Result<Counted, NoMemory>
    requires least { 1 ≤ keys }
    requires most { keys ≤ 100 }
{
    let (tree, start) = on_fresh_words(alloc, keys)?;
    let (running, mut pass) = Running::open(alloc, tree, start)?;
    fill_shared(&running, &mut pass, keys);
    Ok(answers(&running, &mut pass, Call::Contains(1), times))
}
