ghost use Rattle.flit_tree_knowing.specs.Laws.{AllLasts, LoadsReach, SeenIsHad, TopIsPlain};

/// What a search knows lasts while others change the heap; a load of an edge gives it what it is to
/// know of the row that the edge leads to; word 4 never has a bit; and what was seen has a position
/// once all that is depended on is persistent.
pub fn knowledge()
    ensures lasts { AllLasts }
    ensures loads { LoadsReach }
    ensures top { TopIsPlain }
    ensures had { SeenIsHad }
{}
