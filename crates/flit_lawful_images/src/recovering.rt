ghost use Rattle.std.specs.Prelude.{◌≡◌, ◌≢◌, IfOk};
ghost use Rattle.flit_model.specs.Maps.{Map};
ghost use Rattle.flit_model.specs.Recovery.{IsRecovery, IsWhole, layout_of};
ghost use Rattle.flit_lawful_images.specs.Maps.{IsMapOf, HasPairsOf, HasSoManyKeys};

use flit_model::Image;
use flit_recover::{Damage, Recovered, count_keys, recover, recover_owned};
use flit_words::NoMemory;
use std::alloc::Global;

// The error of a recovery that can have no other.
fn memory_alone(damage: Damage) -> NoMemory
    requires { ¬ (damage ≢ Damage.NoMemory) }
{
    match damage {
        Damage::NoMemory => NoMemory,
        _ => unreachable!(),
    }
}

/// What an image holds that is lawful: the keys and values of its map, and the rows that no link reaches. The error is
/// NoMemory alone.
pub fn recover_lawful(alloc: Global, image: &Image) -> Result<Recovered, NoMemory>
    requires whole { IsWhole image.now }
    requires lawful { (m : Map) × IsMapOf image.now m }
    ensures recovery { IfOk result (λ r. IsRecovery (layout_of image.now) image.now.words.items
        r.keys.items r.values.items r.free.items) }
    ensures pairs { IfOk result (λ r. (m : Map) → IsMapOf image.now m → HasPairsOf m r) }
    ensures words { IfOk result (λ r. r.image.words.items ≡ image.now.words.items) }
{
    match recover(alloc, image) {
        Ok(found) => Ok(found),
        Err(damage) => Err(memory_alone(damage)),
    }
}

/// The same of an image that is given away: its words go into the answer, and none is copied.
pub fn recover_lawful_owned(alloc: Global, image: Image) -> Result<Recovered, NoMemory>
    requires whole { IsWhole image }
    requires lawful { (m : Map) × IsMapOf image m }
    ensures recovery { IfOk result (λ r. IsRecovery (layout_of image) image.words.items r.keys.items
        r.values.items r.free.items) }
    ensures pairs { IfOk result (λ r. (m : Map) → IsMapOf image m → HasPairsOf m r) }
    ensures words { IfOk result (λ r. r.image.words.items ≡ image.words.items) }
{
    match recover_owned(alloc, image) {
        Ok(recovered) => Ok(recovered),
        Err(damage) => Err(memory_alone(damage)),
    }
}

/// How many keys the map of an image has that is lawful: as many as `recover_lawful` answers, without putting them in order.
/// The error is NoMemory alone.
pub fn count_lawful_keys(alloc: Global, image: &Image) -> Result<usize, NoMemory>
    requires whole { IsWhole image.now }
    requires lawful { (m : Map) × IsMapOf image.now m }
    ensures { IfOk result (HasSoManyKeys image.now) }
{
    match count_keys(alloc, image) {
        Ok(count) => Ok(count),
        Err(damage) => Err(memory_alone(damage)),
    }
}
