ghost use Rattle.flit_runs.specs.Witnesses.{RightOnesKeepRule, BreaksRule, BreaksCounts, beside, early_lower, no_fence_at_completion, always_omits, tag_before_word, no_fence_before_exchange, two_slots};

/// No run by the right instructions breaks the P-V rule; one by each of the wrong ones below does.
pub fn right_ones_keep_rule()
    ensures { RightOnesKeepRule }
{}

/// Early lower: between its Lower and its write-back, a load of the new word finds no tag, and queues nothing.
pub fn early_lower_breaks()
    ensures { BreaksRule beside early_lower }
{}

/// No fence at completion: a call has its reply, and the version that it has loaded can still be lost.
pub fn no_fence_at_completion_breaks()
    ensures { BreaksRule beside no_fence_at_completion }
{}

/// Always omits: a load queues nothing though a tag shows, and its call ends.
pub fn always_omits_breaks()
    ensures { BreaksRule beside always_omits }
{}

/// Tag before word: between the two the slot is raised and the word exchanged, and the load queues nothing.
pub fn tag_before_word_breaks()
    ensures { BreaksRule beside tag_before_word }
{}

/// No fence before the exchange: a worker exchanges a word while the version that it has loaded can be lost.
pub fn no_fence_before_exchange_breaks()
    ensures { BreaksRule beside no_fence_before_exchange }
{}

/// Two slots: by an exchange that lowers another slot than it has raised, that slot's count is no longer the number of
/// the exchanges that hold it up; a load of the other word finds no tag on it, and queues nothing.
pub fn two_slots_break()
    ensures counts { BreaksCounts beside two_slots }
    ensures rule { BreaksRule beside two_slots }
{}
