ghost use Rattle.std.specs.Prelude.{ℕ, List};
ghost use Rattle.flit_words.specs.declared.layouts.Layout.{Layout as A_layout};
ghost use Rattle.flit_model.specs.Recovery.{SameShape};
ghost use Rattle.flit_model.specs.declared.found.Recovered.{Recovered as A_recovery};
ghost use Rattle.flit_model.specs.Recovery.{IsRecovery};
ghost use Rattle.flit_structure.specs.Lawful.{IsOpening};
ghost use Rattle.flit_sched.specs.Openings.{opening_at, IsBookOf};

/// What recovery finds in an image is an opening: the image is lawful and has the map of the keys and values, and the
/// free rows rise. The keys rise too, and each has a value. It is found so for each layout of the same words.
pub fn recovered_opens()
    ensures opening { (l : A_layout) (r : A_recovery) →
        IsRecovery l r.image.words.items r.keys.items r.values.items r.free.items →
        IsOpening l (opening_at r) }
    ensures book { (l : A_layout) (r : A_recovery) →
        IsRecovery l r.image.words.items r.keys.items r.values.items r.free.items → IsBookOf r }
    ensures shape { (l k : A_layout) (words keys values free : List ℕ) → SameShape l k →
        IsRecovery l words keys values free → IsRecovery k words keys values free }
{}
