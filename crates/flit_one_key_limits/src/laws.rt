ghost use Rattle.flit_one_key_limits.specs.OneKeyLimits.{OneKeyIsBounded};

/// A map of at most one key keeps its counts and its bounds, whatever its layout of one row, its placement and its pool.
pub fn one_key_is_bounded()
    ensures { OneKeyIsBounded }
{}
