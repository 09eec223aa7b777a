ghost use Rattle.flit_list_limits.specs.Laws.{ListsCount, ListsKeepLimits};

/// A list or a hash table keeps its counts, whatever its layout, its placement and its pool.
pub fn lists_count()
    ensures { ListsCount }
{}

/// What may follow the machines of a call of a list or a hash table falls as its bounds ask, and it begins a search again only
/// where an exchange of its own was lost.
pub fn lists_keep_limits()
    ensures { ListsKeepLimits }
{}
