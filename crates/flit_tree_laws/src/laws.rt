ghost use Rattle.flit_tree_laws.specs.Laws.{TreesKeep};

/// The tree meets all that the crew asks, whatever its layout, its placement and its pool; and it
/// may be opened over each lawful image, with flagged leaves, frozen edges and rows that are to be
/// cut off.
pub fn trees_keep()
    ensures { TreesKeep }
{}
