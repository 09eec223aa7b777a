use flit_model::{Call, Entry, Outcome, Reply};
use flit_plain::play;
use flit_recover::Recovered;
use std::alloc::Global;
use std::process::Abort;
use std::test::Fail;

/// The keys that the tests use.
const KEYS: [u32; 2] = [6, 7];

/// One worker that makes the calls of a history gets its replies, and then its map is what was recovered.
pub fn plays_to(
    rt: &impl Abort,
    alloc: Global,
    history: &[Entry],
    found: &Recovered,
) -> Result<(), Fail> {
    let mut calls = Vec::new(alloc);
    for entry in history {
        calls.push(entry.call)?;
    }
    for key in KEYS {
        calls.push(Call::Get(key))?;
    }
    let replies = play(alloc, &calls)?;
    let (keys, values) = pairs_left(rt, alloc, history, &replies)?;
    assert_eq!(rt; found.keys.as_slice(), keys.as_slice());
    assert_eq!(rt; found.values.as_slice(), values.as_slice());
    Ok(())
}

/// The keys and values that the replies behind a history's own tell of.
fn pairs_left(
    rt: &impl Abort,
    alloc: Global,
    history: &[Entry],
    replies: &[Reply],
) -> Result<(Vec<u32>, Vec<u32>), Fail> {
    let mut keys = Vec::new(alloc);
    let mut values = Vec::new(alloc);
    for (at, reply) in replies.iter().enumerate() {
        if at < history.len() {
            assert_eq!(rt; *reply, history[at].reply);
        } else if let Reply::Found { value } = reply {
            assert!(rt; at - history.len() < KEYS.len());
            keys.push(KEYS[at - history.len()])?;
            values.push(*value)?;
        }
    }
    Ok((keys, values))
}

/// A call that has its reply is in the history once, with this reply, but not where it was answered Full or Worn. A
/// call without a reply may be in it once.
pub fn told_once(
    rt: &impl Abort,
    history: &[Entry],
    worker: u32,
    number: u32,
    call: Call,
    outcome: Option<Outcome>,
) {
    let mut times = 0_u32;
    for entry in history {
        if entry.worker == worker && entry.number == number {
            assert_eq!(rt; entry.call, call);
            if let Some(Outcome::Replied(reply)) = outcome {
                assert_eq!(rt; entry.reply, reply);
            }
            times = times.saturating_add(1);
        }
    }
    match outcome {
        Some(Outcome::Replied(Reply::Full { .. } | Reply::Worn { .. })) => {
            assert_eq!(rt; times, 0);
        }
        Some(Outcome::Replied(_)) => assert_eq!(rt; times, 1),
        Some(Outcome::Stopped) => assert!(rt; times <= 1),
        None => assert!(rt; false),
    }
}
