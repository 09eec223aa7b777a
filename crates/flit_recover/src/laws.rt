ghost use Rattle.flit_recover.specs.AboutDamages.{ListLawfulOrDamaged, ListLawfulUndamaged, OneListDamage, TreeLawfulOrDamaged, TreeLawfulUndamaged, OneTreeDamage};

/// A whole image of a list or a hash table is lawful, or it has a first damage, but not both; and it
/// has one first damage.
pub fn one_damage_of_lists()
    ensures some { ListLawfulOrDamaged }
    ensures apart { ListLawfulUndamaged }
    ensures one { OneListDamage }
{}

/// A whole image of a tree is lawful, or it has a first damage, but not both; and it has one first damage.
pub fn one_damage_of_trees()
    ensures some { TreeLawfulOrDamaged }
    ensures apart { TreeLawfulUndamaged }
    ensures one { OneTreeDamage }
{}
