ghost use Rattle.flit_one_key_crew.specs.OneKeyCrew.{OneKeyKeeps};

/// A map of at most one key meets all that the crew asks, whatever its layout of one row, its
/// placement and its pool.
pub fn one_key_keeps()
    ensures { OneKeyKeeps }
{}
