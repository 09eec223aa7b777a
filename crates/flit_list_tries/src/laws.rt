ghost use Rattle.flit_list_tries.specs.Laws.{ListsKeepTries, ListsKeepBounds};

/// The events of each try of a list or a hash table are bounded: at most ten for each row of the layout, and forty.
pub fn lists_keep_tries()
    ensures { ListsKeepTries }
{}

/// A list or a hash table keeps all its bounds, whatever its layout, its placement and its pool.
pub fn lists_keep_bounds()
    ensures { ListsKeepBounds }
{}
