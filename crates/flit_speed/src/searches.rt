ghost use Rattle.std.specs.Prelude.{◌≡◌, ◌≤◌, IfOk};
ghost use Rattle.flit_list_laws.specs.ListCrew.{IsOfLists};
ghost use Rattle.flit_table.specs.Passes.{BelongsTo};
ghost use Rattle.flit_speed.specs.Benches.{IsAlone, HasReply};
ghost use Rattle.flit_speed.specs.Searches.{IsListStart, long_list};

use crate::Counted;
use crate::benches::Bench;
use crate::shared::answers;
use flit_hashed::Hashed;
use flit_list::List;
use flit_model::{Call, Machine, Recovered, Reply};
use flit_recover::fresh;
use flit_rows::Pool;
use flit_sched::recovered_opens;
use flit_structure::Structure;
use flit_table::{Pass, Running};
use flit_words::{GREATEST_VERSION, Kind, Layout, NoMemory};
use std::alloc::Global;

/// A list of so many rows, whose words have one of eight slots each.
fn list_of(rows: u32) -> Layout
    requires least { 1 ≤ rows }
    requires most { rows ≤ 100 }
    ensures layout { result ≡ long_list rows }
    ensures lists { IsOfLists result }
{
    Layout {
        kind: Kind::List,
        buckets: 1,
        rows,
        slots: 8,
        workers: 1,
        limit: GREATEST_VERSION,
        values: false,
    }
}

/// The list of so many rows, and what recovery finds in its fresh words.
fn on_fresh_words(alloc: Global, rows: u32) -> Result<(List<Hashed>, Recovered), NoMemory>
    requires least { 1 ≤ rows }
    requires most { rows ≤ 100 }
    ensures { IfOk result (λ r. IsListStart rows r.0 r.1) }
{
    recovered_opens();
    let layout = list_of(rows);
    let start = fresh(alloc, &layout)?;
    let pool = Pool::new(alloc, &start.free)?;
    let list = List::new(layout, Hashed { slots: 8 }, pool);
    Ok((list, start))
}

/// Makes the same call again and again.
pub(crate) fn calls<S: Structure>(bench: &mut Bench<S>, key: u32, times: u32) -> u64
    requires key { key ≤ 100 }
    requires alone { IsAlone (S.meaning bench.old.structure) bench.old.calls bench.old.machine
        bench.old.op }
    requires ended { HasReply (S.meaning bench.old.structure) bench.old.op }
{
    let mut yes = 0u64;
    for _ in 0..times {
        if bench.call(Call::Contains(key)) == Some(Reply::Yes) {
            yes = yes.wrapping_add(1);
        }
    }
    yes
}

/// Puts keys in, so that each stands before those that are there, and the last one is the least.
pub(crate) fn fill<S: Structure>(bench: &mut Bench<S>, keys: u32)
    requires most { keys ≤ 100 }
    requires alone { IsAlone (S.meaning bench.old.structure) bench.old.calls bench.old.machine
        bench.old.op }
    requires ended { HasReply (S.meaning bench.old.structure) bench.old.op }
    ensures alone { IsAlone (S.meaning bench.new.structure) bench.new.calls bench.new.machine
        bench.new.op }
    ensures ended { HasReply (S.meaning bench.new.structure) bench.new.op }
{
    for made in 0..keys {
        bench.call(Call::Insert(keys - made, 0));
    }
}

/// A list of so many rows, and contains of the key in its last one.
pub(crate) fn alone(alloc: Global, rows: u32, times: u32) -> Result<Counted, NoMemory>
    requires least { 1 ≤ rows }
    requires most { rows ≤ 100 }
{
    let (list, _start) = on_fresh_words(alloc, rows)?;
    let machine = Machine::new(alloc, &list_of(rows))?;
    let mut bench = Bench::open(list, machine, Call::Insert(rows, 0));
    fill(&mut bench, rows - 1);
    let before = bench.events;
    let yes = calls(&mut bench, rows, times);
    Ok(Counted {
        yes,
        events: bench.events.wrapping_sub(before),
    })
}

/// Puts keys in, as on a machine of its own.
pub(crate) fn fill_shared<S: Structure>(running: &Running<S>, pass: &mut Pass<S>, keys: u32)
    requires most { keys ≤ 100 }
    requires pass { BelongsTo S.meaning running.now pass.old }
    ensures pass { BelongsTo S.meaning running.now pass.new }
{
    for made in 0..keys {
        answers(running, pass, Call::Insert(keys - made, 0), 1);
    }
}

/// The same on words that threads share.
pub(crate) fn shared(alloc: Global, rows: u32, times: u32) -> Result<Counted, NoMemory>
    requires least { 1 ≤ rows }
    requires most { rows ≤ 100 }
{
    let (list, start) = on_fresh_words(alloc, rows)?;
    let (running, mut pass) = Running::open(alloc, list, start)?;
    fill_shared(&running, &mut pass, rows);
    Ok(answers(&running, &mut pass, Call::Contains(rows), times))
}
