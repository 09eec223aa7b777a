ghost use Rattle.std.specs.Prelude.{◌≡◌, length, IfOk, OnErr, OnOk};
ghost use Rattle.std.specs.FinMap as map;
ghost use Rattle.flit_model.specs.Maps.{Map, IsLegal, reply_of, map_after};
ghost use Rattle.flit_plain.specs.Playing.{entries_of, HasSame};

use flit_model::{Call, Reply};
use flit_words::NoMemory;
use std::alloc::Global;
use std::collections::BTreeMap;

/// Makes a call on the map.
fn reply_to(map: &mut BTreeMap<u32, u32>, call: Call) -> Result<Reply, NoMemory>
    ensures reply { IfOk result (λ reply. (m : Map) → HasSame m map.old → reply ≡ reply_of m call) }
    ensures map { OnOk result ((m : Map) → HasSame m map.old → HasSame (map_after m call) map.new) }
{
    match call {
        Call::Insert(key, value) => {
            if map.contains_key(&key) {
                return Ok(Reply::No);
            }
            map.insert(key, value)?;
            Ok(Reply::Yes)
        }
        Call::Remove(key) => match map.remove(&key) {
            Some(_) => Ok(Reply::Yes),
            None => Ok(Reply::No),
        },
        Call::Contains(key) => {
            if map.contains_key(&key) {
                Ok(Reply::Yes)
            } else {
                Ok(Reply::No)
            }
        }
        Call::Get(key) => match map.get(&key) {
            Some(value) => Ok(Reply::Found { value: *value }),
            None => Ok(Reply::No),
        },
    }
}

/// The replies of a map that begins empty and is asked these calls in turn: one for each call, in the order of the calls.
/// The one error is that no memory was left.
pub fn play(alloc: Global, calls: &[Call]) -> Result<Vec<Reply>, NoMemory>
    ensures each { IfOk result (λ replies. length replies.items ≡ length calls.now) }
    ensures legal { IfOk result (λ replies. IsLegal map.empty
        (entries_of calls.now replies.items)) }
{
    let mut map = BTreeMap::new(alloc);
    let mut replies = Vec::new(alloc);
    for call in calls {
        replies.push(reply_to(&mut map, *call)?)?;
    }
    Ok(replies)
}
