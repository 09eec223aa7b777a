ghost use Rattle.flit_list_laws.specs.Laws.{ListsKeep};
ghost use Rattle.flit_list_laws.specs.Loads.{HeadsAreRead, NextsAreRead, KeysAreRead, ValuesAreRead};

/// A list or a hash table meets all that the crew asks, whatever its layout, its placement and its pool; and it may be
/// opened over each lawful image.
pub fn lists_keep()
    ensures { ListsKeep }
{}

/// What a load adds to what a call knows: of a head, of a row's next word, of its key and of its value.
pub fn loads()
    ensures heads { HeadsAreRead }
    ensures nexts { NextsAreRead }
    ensures keys { KeysAreRead }
    ensures values { ValuesAreRead }
{}
