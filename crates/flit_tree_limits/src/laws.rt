ghost use Rattle.flit_tree_limits.specs.Laws.{TreesCount, TreesKeepLimits};

/// A call begins with its hand's counts, and goes on with those of its ended machine, but for a
/// help and a search; a row leaves its hand's spare ones only by the won exchange that links both.
pub fn trees_count()
    ensures { TreesCount }
{}

/// Each event of a call leaves fewer that may follow; and a seek begins only where an exchange was
/// lost, or a removal was helped. The events of one try have no bound.
pub fn trees_keep_limits()
    ensures { TreesKeepLimits }
{}
