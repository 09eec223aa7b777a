ghost use Rattle.std.specs.Prelude.{◌≡◌, ℕ, ◌<◌, ◌≤◌, List, ◌∷◌, [], ◌++◌, Some, Bool};
ghost use Rattle.std.specs.List.{AllByRecursion};
ghost use Rattle.flit_model.specs.CrashImages.{crash_image};
ghost use Rattle.flit_model.specs.Effects.{after, answer};
ghost use Rattle.flit_model.specs.Histories.{history_of};
ghost use Rattle.flit_model.specs.Maps.{IsLegal, map_after_all};
ghost use Rattle.flit_model.specs.Settling.{taken_updates};
ghost use Rattle.flit_model.specs.States.{State, state_from};
ghost use Rattle.flit_model.specs.declared.events.Event.{Event};
ghost use Rattle.flit_model.specs.declared.calls.Placed.{Placed};
ghost use Rattle.flit_model.specs.declared.calls.Entry.{Entry as An_entry};
ghost use Rattle.flit_structure.specs.Lawful.{IsRecoverable};
ghost use Rattle.flit_structure.specs.Meanings.{asked_by, effect_by};
ghost use Rattle.flit_structure.specs.Moments.{HaveDifferentNames};
ghost use Rattle.flit_table.specs.declared.views.Logged.{Logged};
ghost use Rattle.flit_table.specs.declared.views.Origin.{Origin};
ghost use Rattle.flit_table.specs.declared.views.Start.{Start};
ghost use Rattle.flit_table.specs.declared.views.View.{View};
ghost use Rattle.flit_table.specs.Logs.{progress_of, settled_in, logged_by};
ghost use Rattle.flit_table.specs.Orders.{StandInOrder, AreInOrder};
ghost use Rattle.flit_table.specs.Views.{opening_of, content_of, posts_of, updates_seen, history_seen, all_workers, keeper, heir, both, spent};
ghost use Rattle.flit_table.specs.Moves.{MayEnter, HasNoneQueued, entering, having_moved, having_rested, first_in};
ghost use Rattle.flit_table.specs.Rule.{Kept, first_view};

use flit_structure::Structure;

/// The rule holds of the table as it is opened, with the one view that has all names.
pub fn rule_opens<S: Structure>()
    ensures { (o : Origin S) → (S.meaning o.structure.value).opens (opening_of o) →
        Kept (S.meaning o.structure.value) o (state_from (S.meaning o.structure.value).layout
        (opening_of o).words) [] (first_view (S.meaning o.structure.value) o ∷ []) }
{}

/// What the first worker of a view does keeps the rule: it begins a call or an evict; it makes the event that it asks
/// for, of whatever kind; and it is done with its item, where that was the last. A completed read has its place then, not
/// before what its call's first event found settled.
pub fn steps_keep<S: Structure>()
    ensures begins { (o : Origin S) (m : State) (log : List Logged) (a b : List (View S S.Op))
        (v : View S S.Op) (start : Start) → 0 < v.names →
        MayEnter (S.meaning o.structure.value) start v.post →
        Kept (S.meaning o.structure.value) o m log (a ++ v ∷ b) →
        Kept (S.meaning o.structure.value) o m log
        (a ++ entering (S.meaning o.structure.value) start v ∷ b) }
    ensures moves { (o : Origin S) (m : State) (log : List Logged) (a b : List (View S S.Op))
        (v : View S S.Op) (e : Event) → 0 < v.names →
        asked_by (S.meaning o.structure.value) v.post.worker ≡ Some e →
        Kept (S.meaning o.structure.value) o m log (a ++ v ∷ b) →
        Kept (S.meaning o.structure.value) o (after m e)
        (log ++ logged_by e (answer m e) (effect_by (S.meaning o.structure.value) v.post.worker))
        (a ++ having_moved (S.meaning o.structure.value) log e (answer m e) v ∷ b) }
    ensures rests { (o : Origin S) (m : State) (log : List Logged) (a b : List (View S S.Op))
        (v : View S S.Op) → 0 < v.names → v.log ≡ log →
        Kept (S.meaning o.structure.value) o m log (a ++ v ∷ b) → (reads : List Placed)
        × Kept (S.meaning o.structure.value) o m log
        (a ++ having_rested (S.meaning o.structure.value) reads v ∷ b)
        × AllByRecursion (λ r. first_in v.post.worker.doing ≤ r.position) reads }
{}

/// A pass that gives away its last names, and a pass that takes another in, keep the rule, wherever their views stand.
pub fn seats_keep<S: Structure>()
    ensures splits { (o : Origin S) (m : State) (log : List Logged) (a b : List (View S S.Op))
        (v : View S S.Op) (give : ℕ) → 0 < give → give < v.names →
        Kept (S.meaning o.structure.value) o m log (a ++ v ∷ b) →
        Kept (S.meaning o.structure.value) o m log ((a ++ keeper give v ∷ b) ++ heir give v ∷ []) }
    ensures joins { (o : Origin S) (m : State) (log : List Logged) (a b c : List (View S S.Op))
        (v w : View S S.Op) → 0 < v.names → 0 < w.names →
        Kept (S.meaning o.structure.value) o m log (a ++ v ∷ (b ++ w ∷ c)) →
        Kept (S.meaning o.structure.value) o m log (a ++ both v w ∷ (b ++ spent ∷ c)) }
    ensures joins_before { (o : Origin S) (m : State) (log : List Logged)
        (a b c : List (View S S.Op)) (v w : View S S.Op) → 0 < v.names → 0 < w.names →
        Kept (S.meaning o.structure.value) o m log (a ++ w ∷ (b ++ v ∷ c)) →
        Kept (S.meaning o.structure.value) o m log (a ++ spent ∷ (b ++ both v w ∷ c)) }
{}

/// Under the rule every crash image is lawful, and has the map after the settled updates and those that it takes; the
/// names of all views are different; what a pass has seen begins the settled updates and is legal, with its reads; and the
/// completed calls of each of its names stand once and in order in what it has seen, and among all settled updates. With
/// one worker nothing is queued.
pub fn rule_says<S: Structure>()
    ensures crash { (o : Origin S) (m : State) (log : List Logged) (views : List (View S S.Op))
        (picks : ℕ → Bool) → Kept (S.meaning o.structure.value) o m log views →
        IsRecoverable (S.meaning o.structure.value).layout (content_of o) (crash_image picks m)
        (settled_in log ++ taken_updates (progress_of log) picks) }
    ensures names { (o : Origin S) (m : State) (log : List Logged) (views : List (View S S.Op)) →
        Kept (S.meaning o.structure.value) o m log views → HaveDifferentNames (all_workers views) }
    ensures seen { (o : Origin S) (m : State) (log : List Logged) (a b : List (View S S.Op))
        (v : View S S.Op) → Kept (S.meaning o.structure.value) o m log (a ++ v ∷ b) →
        (more : List An_entry) × (settled_in log ≡ updates_seen v ++ more) }
    ensures legal { (o : Origin S) (m : State) (log : List Logged) (a b : List (View S S.Op))
        (v : View S S.Op) → Kept (S.meaning o.structure.value) o m log (a ++ v ∷ b) →
        IsLegal (content_of o) (updates_seen v) × IsLegal (content_of o) (history_seen v) }
    ensures map { (o : Origin S) (m : State) (log : List Logged) (a b : List (View S S.Op))
        (v : View S S.Op) → Kept (S.meaning o.structure.value) o m log (a ++ v ∷ b) →
        map_after_all (content_of o) (history_seen v) ≡ map_after_all (content_of o)
        (updates_seen v) }
    ensures order { (o : Origin S) (m : State) (log : List Logged) (a b : List (View S S.Op))
        (v : View S S.Op) → Kept (S.meaning o.structure.value) o m log (a ++ v ∷ b) →
        AreInOrder v × AllByRecursion (λ p. StandInOrder (history_of (settled_in log) v.placed)
        v.mine p.worker) (posts_of v) }
    ensures queued { (o : Origin S) (m : State) (log : List Logged) (a b : List (View S S.Op))
        (v : View S S.Op) → Kept (S.meaning o.structure.value) o m log (a ++ v ∷ b) →
        (S.meaning o.structure.value).layout.workers ≡ 1 →
        AllByRecursion (HasNoneQueued (S.meaning o.structure.value)) (posts_of v) }
{}
