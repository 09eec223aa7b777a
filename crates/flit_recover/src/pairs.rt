ghost use Rattle.std.specs.Prelude.{◌≡◌, ℕ, List, map, IfOk, IfErr};
ghost use Rattle.std.specs.List.Sorted.{IsPermutation, IsNonDecreasingBy};

use crate::found::Damage;
use std::alloc::Global;

/// Sorts pairs by their keys.
pub(crate) fn sort_pairs(pairs: &mut Vec<(u32, u32)>)
    ensures moved { IsPermutation pairs.old.items pairs.new.items }
    ensures rising { IsNonDecreasingBy (λ p. p.0) pairs.new.items }
{
    pairs.sort_unstable_by_key(|pair| pair.0);
}

/// The keys of pairs, and their values in the same order.
pub(crate) fn split_pairs(
    alloc: Global,
    pairs: &[(u32, u32)],
) -> Result<(Vec<u32>, Vec<u32>), Damage>
    ensures keys { IfOk result (λ r. r.0.items ≡ map (λ p. p.0) pairs.now) }
    ensures values { IfOk result (λ r. r.1.items ≡ map (λ p. p.1) pairs.now) }
    ensures err { IfErr result (λ d. d ≡ Damage.NoMemory) }
{
    let keys = pairs.iter().map(|pair| pair.0).collect(alloc)?;
    let values = pairs.iter().map(|pair| pair.1).collect(alloc)?;
    Ok((keys, values))
}
