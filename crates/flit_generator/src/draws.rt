ghost use Rattle.std.specs.Prelude.{◌≡◌, ◌+◌, ◌*◌, ◌<◌, ◌≤◌};
ghost use Rattle.flit_generator.specs.Generator.{next_state, drawn, key_of, call_of};

use flit_model::Call;
use flit_words::MOST_WORKERS;

/// The state behind a state.
pub fn next_state(state: u64) -> u64
    requires { state < 2147483648 }
    ensures is { result ≡ next_state state }
    ensures below { result < 2147483648 }
{
    (state * 1103515245 + 12345) % 2147483648
}

/// What is drawn at a state.
pub fn drawn(state: u64) -> u32
    requires { state < 2147483648 }
    ensures is { result ≡ drawn state }
    ensures below { result < 32768 }
{
    (state / 65536) as u32
}

/// A worker's key, by what is drawn.
pub fn key_of(keys: u32, workers: u32, worker: u32, draw: u32) -> u32
    requires least_keys { 1 ≤ keys }
    requires most_keys { keys ≤ 32768 }
    requires most_workers { workers ≤ MOST_WORKERS }
    requires worker { 1 ≤ worker }
    requires within { worker ≤ workers }
    ensures { result ≡ key_of keys workers worker draw }
{
    draw % keys * workers + (worker - 1)
}

/// The call on a key, by what is drawn.
pub fn call_of(draw: u32, key: u32) -> Call
    ensures { result ≡ call_of draw key }
{
    match draw % 4 {
        2 => Call::Remove(key),
        3 => Call::Contains(key),
        _ => Call::Insert(key, 0),
    }
}
