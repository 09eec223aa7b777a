ghost use Rattle.flit_list_structure.specs.ListStructure.{ListsAreLawful};

/// A list or a hash table keeps every law of a structure, and those that a structure around it
/// needs, whatever its layout, its placement and its pool.
pub fn lists_are_lawful()
    ensures { ListsAreLawful }
{}
