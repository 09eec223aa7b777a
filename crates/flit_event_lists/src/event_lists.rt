ghost use Rattle.std.specs.Prelude.{◌≡◌, ℕ, ◌+◌, ◌-◌, ◌^◌, ◌≤◌, min};
ghost use Rattle.flit_pv.specs.Hands.{more};
ghost use Rattle.flit_event_lists.specs.EventLists.{raised};
ghost use Rattle.flit_event_lists.specs.Laws.{LoadEvents, VLoadEvents, ConfirmEvents, ExchangeEvents, VExchangeEvents, StoreEvents, FenceEvents, CompleteEvents, EvictEvents};
ghost use Rattle.flit_event_lists.specs.Laws.{LostLeavesWords, WornWritesNothing, QueuesWhereShown, WornWhere, QueueWithin, TallyAddsUp, EventsWithin};

/// The events of a PLoad from its start to its end are those of its list: the Load, the ReadTag of the word's slot
/// where it has one, and where a tag shows what queuing takes. Before its end its tally counts the write-backs so far.
pub fn load_events()
    ensures { LoadEvents }
{}

/// The one event of a VLoad is the Load.
pub fn v_load_events()
    ensures { VLoadEvents }
{}

/// The events of a Confirm are the ReadTag of the word's slot where it has one, and where a tag shows what queuing
/// takes.
pub fn confirm_events()
    ensures { ConfirmEvents }
{}

/// The events of a PExchange from its start to its end, and how it ends.
pub fn exchange_events()
    ensures { ExchangeEvents }
{}

/// The one event of a VExchange is the Exchange; where it is worn there is none.
pub fn v_exchange_events()
    ensures { VExchangeEvents }
{}

/// The events of a PrivateStore are all its Loads, and where none of the words is worn its Stores, each with the fence
/// that it takes to queue it.
pub fn store_events()
    ensures { StoreEvents }
{}

/// The events of a Fence are the write-backs of its queue's pairs, in their order.
pub fn fence_events()
    ensures { FenceEvents }
{}

/// The events of a Complete are those of a Fence.
pub fn complete_events()
    ensures { CompleteEvents }
{}

/// The events of an Evict are the Load and the write-back of the bare word.
pub fn evict_events()
    ensures { EvictEvents }
{}

/// A field of a tally that has risen once more, or more often, has risen so often in all; for a field of 64 bits that
/// is the sum, or 2^64 - 1 where the sum is greater.
pub fn rises()
    ensures once_more { (n k : ℕ) → more (raised n k) ≡ raised n (k + 1) }
    ensures in_all { (n j k : ℕ) → raised (raised n j) k ≡ raised n (j + k) }
    ensures sum { (n k : ℕ) → n ≤ 2 ^ 64 - 1 → raised n k ≡ min (n + k) (2 ^ 64 - 1) }
{}

/// A lost exchange changes no value: each of its events, made in any state in which it answers so, leaves every word
/// as it was.
pub fn lost_leaves_words()
    ensures { LostLeavesWords }
{}

/// Where an exchange or a private store ends worn no word was written.
pub fn worn_writes_nothing()
    ensures { WornWritesNothing }
{}

/// A PLoad queues its word just where the placement shows a tag on what it loaded, and a Confirm just where it shows
/// one on its word.
pub fn queues_where_shown()
    ensures { QueuesWhereShown }
{}

/// An exchange ends worn just where the version of its old word is at or past the limit, and a private store ends
/// stored just where each of its Loads answered a version below the limit.
pub fn worn_where()
    ensures { WornWhere }
{}

/// A queue of at most `MOST_QUEUED` pairs has as few again at the end; a fence, and an exchange that isn't worn, leaves
/// none.
pub fn queue_within()
    ensures { QueueWithin }
{}

/// Below 2^64 - 1 the loads of a tally are those that omitted their word and those that queued it, and stay so by every
/// machine.
pub fn tally_adds_up()
    ensures { TallyAddsUp }
{}

/// How many events a machine makes at most from its start to its end, over a queue of at most `MOST_QUEUED` pairs.
pub fn events_within()
    ensures { EventsWithin }
{}
