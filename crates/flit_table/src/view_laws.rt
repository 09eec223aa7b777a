ghost use Rattle.std.specs.Prelude.{◌≡◌, ◌≢◌, ℕ, ◌+◌, ◌++◌, replicate};
ghost use Rattle.flit_table.specs.declared.views.View.{View};
ghost use Rattle.flit_table.specs.Views.{events_of, made_by, heir, both};

/// So many events under a name raise its number of events by just so many, and leave those of the other names. A pass
/// that is split off has made no event; and of two passes that are joined the numbers of each name are added, and the
/// items of each name stand behind each other.
pub fn events_counted<S, O>()
    ensures rise { (v w : View S O) (name made : ℕ) → w.events ≡ replicate made name ++ v.events →
        events_of name w ≡ made + events_of name v }
    ensures others { (v w : View S O) (name made other : ℕ) →
        w.events ≡ replicate made name ++ v.events → other ≢ name →
        events_of other w ≡ events_of other v }
    ensures split { (v : View S O) (give name : ℕ) → events_of name (heir give v) ≡ 0 }
    ensures join { (v w : View S O) (name : ℕ) →
        events_of name (both v w) ≡ events_of name v + events_of name w }
    ensures items { (v w : View S O) (name : ℕ) →
        made_by name (both v w).mine ≡ made_by name v.mine ++ made_by name w.mine }
{}
