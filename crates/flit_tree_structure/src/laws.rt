ghost use Rattle.flit_tree_structure.specs.TreeStructure.{TreesAreLawful};

/// The tree keeps every law of a structure, and those that a structure around it needs, whatever
/// its layout, its placement and its pool.
pub fn trees_are_lawful()
    ensures { TreesAreLawful }
{}
