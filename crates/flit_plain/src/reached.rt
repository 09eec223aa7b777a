ghost use Rattle.std.specs.Prelude.{◌≡◌, []};

use std::alloc::Global;

/// The rows that links have led to, and the keys with their values that are in the map.
#[derive(Drop)]
pub(crate) struct Reached {
    pub(crate) rows: Vec<u32>,
    pub(crate) pairs: Vec<(u32, u32)>,
}

impl Reached {
    pub(crate) fn new(alloc: Global) -> Reached
        ensures rows { result.rows.items ≡ [] }
        ensures pairs { result.pairs.items ≡ [] }
    {
        Reached {
            rows: Vec::new(alloc),
            pairs: Vec::new(alloc),
        }
    }
}
