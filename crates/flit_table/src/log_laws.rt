ghost use Rattle.std.specs.Prelude.{◌≡◌, List, ◌++◌, Option};
ghost use Rattle.flit_model.specs.States.{State};
ghost use Rattle.flit_model.specs.Effects.{answer};
ghost use Rattle.flit_model.specs.Settling.{Progress, progress_after};
ghost use Rattle.flit_model.specs.declared.events.Event.{Event};
ghost use Rattle.flit_model.specs.declared.calls.Entry.{Entry};
ghost use Rattle.flit_table.specs.declared.views.Logged.{Logged};
ghost use Rattle.flit_table.specs.Logs.{progress_from, progress_of, settled_in, logged_by};

/// What an event appends to a log makes the progress read from the log what the event makes of it; and a longer log has
/// settled what a shorter one has, first and in its order.
pub fn logs_settle()
    ensures follows { (log : List Logged) (m : State) (e : Event) (effect : Option Entry) →
        progress_of (log ++ logged_by e (answer m e) effect) ≡ progress_after (progress_of log) m e
        effect }
    ensures grows { (log more : List Logged) → (between : List Entry)
        × (settled_in (log ++ more) ≡ settled_in log ++ between) }
{}
