//! Measures what an operation costs. The words of the command line are a number, which says what is done, and how often
//! it is done. It writes how many replies were Yes and how many events were made.
#![tactic(auto)]

mod benches;
mod openings;
mod plain;
mod samples;
mod scheduled;
mod searches;
mod shared;
mod tree_searches;

use flit_words::NoMemory;
use std::alloc::Global;
use std::rt::Env;
use std::{env, io};

/// What was counted.
#[derive(Clone, Copy, Debug, Default, PartialEq, Eq)]
pub struct Counted {
    pub yes: u64,
    pub events: u64,
}

impl Counted {
    /// Both together.
    fn and(self, more: Counted) -> Counted {
        Counted {
            yes: self.yes.wrapping_add(more.yes),
            events: self.events.wrapping_add(more.events),
        }
    }
}

/// Does it: 0 is as many loads of plain words; 1 is a contains of a key that is there; 2 is an insert and a remove on
/// fresh words, and 3 two calls of a key that isn't there in their place; 4 is a contains on words that threads share,
/// and 5 one in a run of turns; 6, 7 and 8 are a contains of the last of 1, 10 and 100 rows of a list, and 9, 10 and 11
/// the same on words that threads share; 12, 13 and 14 are a contains of a leaf of a tree below 1, 10 and 100 inner rows,
/// and 15, 16 and 17 the same on words that threads share.
fn measure(alloc: Global, kind: u64, times: u32) -> Result<Counted, NoMemory> {
    match kind {
        0 => plain::loads(alloc, times),
        1 => samples::contains(alloc, times),
        2 => samples::pairs(alloc, times, true),
        3 => samples::pairs(alloc, times, false),
        4 => shared::contains(alloc, times),
        6 => searches::alone(alloc, 1, times),
        7 => searches::alone(alloc, 10, times),
        8 => searches::alone(alloc, 100, times),
        9 => searches::shared(alloc, 1, times),
        10 => searches::shared(alloc, 10, times),
        11 => searches::shared(alloc, 100, times),
        12 => tree_searches::alone(alloc, 1, times),
        13 => tree_searches::alone(alloc, 10, times),
        14 => tree_searches::alone(alloc, 100, times),
        15 => tree_searches::shared(alloc, 1, times),
        16 => tree_searches::shared(alloc, 10, times),
        17 => tree_searches::shared(alloc, 100, times),
        _ => scheduled::contains(alloc, times),
    }
}

/// Does each of them, one after the other.
fn measure_all(alloc: Global, times: u32) -> Result<Counted, NoMemory> {
    let mut all = Counted::default();
    for kind in 0..18 {
        all = all.and(measure(alloc, kind, times)?);
    }
    Ok(all)
}

/// Does one of them, or, by any greater number, all.
fn measure_some(alloc: Global, kind: u64, times: u32) -> Result<Counted, NoMemory> {
    if kind < 18 {
        measure(alloc, kind, times)
    } else {
        measure_all(alloc, times)
    }
}

/// The number that a word spells, as far as its last digits fit.
fn number(text: &str) -> u64 {
    let mut n = 0u64;
    for b in text.bytes() {
        n = n
            .wrapping_mul(10)
            .wrapping_add(u64::from(b).wrapping_sub(48));
    }
    n
}

fn main(rt: HostRuntime) -> io::Result<()> {
    let mut given = [1u64, 1000];
    for (at, word) in env::args(&rt)?.skip(1).take(2).enumerate() {
        given[at] = number(word.as_str());
    }
    let times = u32::try_from(given[1]).unwrap_or(u32::MAX);
    if let Ok(counted) = measure_some(rt.alloc(), given[0], times) {
        println!(rt; "{} {}", counted.yes, counted.events)?;
    }
    Ok(())
}
