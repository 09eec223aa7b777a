ghost use Rattle.std.specs.Prelude.{◌≡◌, ℕ, ◌<◌, map, length};
ghost use Rattle.std.specs.List.{Contains};
ghost use Rattle.std.specs.FinMap as map_of;
ghost use Rattle.flit_model.specs.Maps.{Map, reply_of, map_after};
ghost use Rattle.std.specs.List.Sorted.{IsStrictlyIncreasing};
ghost use Rattle.flit_structure.specs.Meanings.{key_of as the_key_of};
ghost use Rattle.flit_sched.specs.Books.{value_after, reply_at};

use crate::players::key_of;
use flit_model::{Call, Reply};

/// What the map has at a key, after a call of this key.
pub(crate) fn after_call(value: Option<u32>, call: Call) -> Option<u32>
    ensures { result ≡ value_after call value }
{
    match call {
        Call::Insert(_, put) => value.or(Some(put)),
        Call::Remove(_) => None,
        Call::Contains(_) | Call::Get(_) => value,
    }
}

/// What a map answers to a call, where it has this value at the call's key.
pub(crate) fn reply_to(value: Option<u32>, call: Call) -> Reply
    ensures { result ≡ reply_at call value }
{
    match (call, value) {
        (Call::Insert(_, _), None) => Reply::Yes,
        (Call::Insert(_, _), Some(_)) => Reply::No,
        (Call::Remove(_) | Call::Contains(_), Some(_)) => Reply::Yes,
        (Call::Remove(_) | Call::Contains(_), None) => Reply::No,
        (Call::Get(_), Some(value)) => Reply::Found { value },
        (Call::Get(_), None) => Reply::No,
    }
}

/// What stands for a key, which is among the keys.
pub(crate) fn value_at(keys: &[u32], values: &[Option<u32>], key: u32) -> Option<u32>
    requires rising { IsStrictlyIncreasing keys.now }
    requires has { Contains keys.now key }
    requires same { length values.now ≡ length keys.now }
    ensures { (now : Map) → map (λ k. map_of.get now k) keys.now ≡ values.now →
        result ≡ map_of.get now key }
{
    match keys.binary_search(&key) {
        Ok(at) => values[at],
        Err(_) => None,
    }
}

/// What stands for each key after a call, whose key is among them.
pub(crate) fn change(keys: &[u32], values: &mut Vec<Option<u32>>, call: Call)
    requires rising { IsStrictlyIncreasing keys.now }
    requires has { Contains keys.now (the_key_of call) }
    requires same { length values.old.items ≡ length keys.now }
    ensures { (now : Map) → map (λ k. map_of.get now k) keys.now ≡ values.old.items →
        map (λ k. map_of.get (map_after now call) k) keys.now ≡ values.new.items }
{
    match keys.binary_search(&key_of(call)) {
        Ok(at) => values[at] = after_call(values[at], call),
        Err(_) => {}
    }
}
