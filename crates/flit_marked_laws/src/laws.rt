ghost use Rattle.flit_marked_laws.specs.ListMarks.{ListsAreMarked, SecondStoresBreak};

/// Others may store words of rows that are neither of the pool nor reached at the opening, and
/// write them back. A list or a hash table tells the row that its Exchange links or marks, and a
/// mark with a name is written by that name's remove alone. Since such an Exchange was asked, a
/// crash image shows the linked row, or the mark, exactly where an update has made it that is
/// settled or that it takes.
pub fn lists_are_marked()
    ensures { ListsAreMarked }
{}

/// The condition on others' stores is needed: after a store of the next version to a word that is
/// ahead already, nothing holds that a list keeps.
pub fn second_stores_break()
    ensures { SecondStoresBreak }
{}
