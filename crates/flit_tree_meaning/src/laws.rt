ghost use Rattle.flit_tree_meaning.specs.Laws.{HandsFit, TreeMeans};

/// What the code of the tree asks, makes of an answer and has in hand is what the crew makes of its
/// machines, whatever the layout, the placement and the pool, and whatever the operation is at.
pub fn tree_means()
    ensures { TreeMeans }
{}

/// At each moment that holds, the spare rows of an operation under way fit what the code packs into
/// links, until they are linked.
pub fn hands_fit()
    ensures { HandsFit }
{}
