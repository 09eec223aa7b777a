ghost use Rattle.flit_list_meaning.specs.Laws.{ListsMean, HandsFit};

/// What the code of a list or a hash table asks, makes of an answer and has in hand is what the
/// crew makes of its machines, whatever the layout, the placement and the pool, and whatever the
/// operation is at.
pub fn lists_mean()
    ensures { ListsMean }
{}

/// At each moment that holds, the hand of an operation under way fits what the code packs into
/// links: its name always, and its row until that is linked.
pub fn hands_fit()
    ensures { HandsFit }
{}
