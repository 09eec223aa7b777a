ghost use Rattle.std.specs.Prelude.{◌≡◌, ◌≤◌, ◌<◌, OnOk, IfOk};
ghost use Rattle.flit_generator.specs.Generator.{call_line, head_lines, call_lines, text_of, generated_calls, generated_text};
ghost use Rattle.flit_generator.specs.Writing.{Appends, AppendsLine};

use crate::draws::{call_of, drawn, key_of, next_state};
use flit_model::Call;
use flit_words::{MOST_WORKERS, NoMemory};
use std::alloc::{AllocError, Global};

/// The most bytes of the line of a call, with its end, as `64 contains 2097151`.
const CALL_LINE: usize = 20;

/// The most bytes of all other lines together.
const OTHER_LINES: usize = 80;

fn write_call(out: &mut String, worker: u32, call: Call) -> Result<(), AllocError>
    ensures { OnOk result (AppendsLine out.old out.new (call_line worker call)) }
{
    match call {
        Call::Insert(key, _) => writeln!(out, "{worker} insert {key}"),
        Call::Remove(key) => writeln!(out, "{worker} remove {key}"),
        Call::Contains(key) => writeln!(out, "{worker} contains {key}"),
        Call::Get(key) => writeln!(out, "{worker} get {key}"),
    }
}

fn write_head(out: &mut String, calls: u32, workers: u32) -> Result<(), AllocError>
    requires calls { calls ≤ 500000 }
    requires workers { workers ≤ MOST_WORKERS }
    ensures { OnOk result (Appends out.old out.new (text_of (head_lines calls workers))) }
{
    let rows = 2 * (calls + workers);
    out.push_str("flit 1\nstructure hash 256\nplace adjacent\n")?;
    writeln!(out, "rows {rows}")?;
    writeln!(out, "workers {workers}")?;
    Ok(())
}

fn write_calls(
    out: &mut String,
    seed: u32,
    calls: u32,
    keys: u32,
    workers: u32,
) -> Result<(), AllocError>
    requires seed { seed ≤ 2147483647 }
    requires least_keys { 1 ≤ keys }
    requires most_keys { keys ≤ 32768 }
    requires least_workers { 1 ≤ workers }
    requires most_workers { workers ≤ MOST_WORKERS }
    ensures { OnOk result (Appends out.old out.new
        (text_of (call_lines (generated_calls seed calls keys workers)))) }
{
    let mut state = u64::from(seed);
    for number in 0..calls {
        let worker = number % workers + 1;
        let named = next_state(state);
        let keyed = next_state(named);
        let key = key_of(keys, workers, worker, drawn(keyed));
        write_call(out, worker, call_of(drawn(named), key))?;
        state = keyed;
    }
    Ok(())
}

/// The text of the trace that the generator makes from the seed: `calls` calls by `workers` workers, who have `keys` keys
/// each.
///
/// The seed is at most 2147483647; there are 1 to 500000 calls, 1 to 32768 keys and 1 to `MOST_WORKERS` workers.
///
/// # Errors
/// `NoMemory` where there is no memory for the text.
pub fn generator_text(
    alloc: Global,
    seed: u32,
    calls: u32,
    keys: u32,
    workers: u32,
) -> Result<Vec<u8>, NoMemory>
    requires seed { seed ≤ 2147483647 }
    requires least_calls { 1 ≤ calls }
    requires most_calls { calls ≤ 500000 }
    requires least_keys { 1 ≤ keys }
    requires most_keys { keys ≤ 32768 }
    requires least_workers { 1 ≤ workers }
    requires most_workers { workers ≤ MOST_WORKERS }
    ensures { IfOk result (λ text. text.items ≡ generated_text seed calls keys workers) }
{
    let mut out = String::with_capacity(alloc, CALL_LINE * calls as usize + OTHER_LINES)?;
    write_head(&mut out, calls, workers)?;
    write_calls(&mut out, seed, calls, keys, workers)?;
    out.push_str("end\n")?;
    Ok(out.into_bytes())
}
