ghost use Rattle.std.specs.Prelude.{IfOk};
ghost use Rattle.flit_structure.specs.Meanings.{IsServed};
ghost use Rattle.flit_speed.specs.Benches.{IsReady, one_row as the_row};

use crate::Counted;
use crate::benches::Bench;
use crate::openings::{HAS, PUT, one_row};
use flit_hashed::Hashed;
use flit_model::{Call, Machine, Reply};
use flit_rows::Pool;
use flit_sample::Sample;
use flit_words::NoMemory;
use std::alloc::Global;

/// The sample on fresh words, with a first call made.
fn open(alloc: Global, call: Call) -> Result<Bench<Sample<Hashed>>, NoMemory>
    requires { IsServed the_row call }
    ensures { IfOk result (λ b. IsReady b) }
{
    let layout = one_row();
    let machine = Machine::new(alloc, &layout)?;
    let pool = Pool::new(alloc, &[1])?;
    let sample = Sample::new(layout, Hashed { slots: 8 }, pool);
    Ok(Bench::open(sample, machine, call))
}

/// Contains of the one key, which is there.
pub(crate) fn contains(alloc: Global, times: u32) -> Result<Counted, NoMemory> {
    let mut bench = open(alloc, PUT)?;
    let mut yes = 0u64;
    for _ in 0..times {
        if bench.call(HAS) == Some(Reply::Yes) {
            yes = yes.wrapping_add(1);
        }
    }
    Ok(Counted {
        yes,
        events: bench.events,
    })
}

/// The first of two calls.
fn first_call(updates: bool) -> Call
    ensures { IsServed the_row result }
{
    if updates { PUT } else { Call::Remove(5) }
}

/// Two calls on fresh words, again and again: an insert and a remove, or two that find nothing.
pub(crate) fn pairs(alloc: Global, times: u32, updates: bool) -> Result<Counted, NoMemory> {
    let mut counted = Counted::default();
    for _ in 0..times {
        let mut bench = open(alloc, first_call(updates))?;
        if bench.call(Call::Remove(5)) == Some(Reply::Yes) {
            counted.yes = counted.yes.wrapping_add(1);
        }
        counted.events = counted.events.wrapping_add(bench.events);
    }
    Ok(counted)
}
