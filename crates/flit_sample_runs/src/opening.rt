ghost use Rattle.std.specs.Prelude.{◌≡◌, ℕ, ◌+◌, ◌<◌, false, IfOk, slice_index};
ghost use Rattle.flit_words.specs.Layouts.{words_of};
ghost use Rattle.flit_model.specs.Lists.{link_in};
ghost use Rattle.flit_place.specs.Tags.{IsSlot};
ghost use Rattle.flit_model.specs.Recovery.{IsRecovery};
ghost use Rattle.flit_one_key.specs.Steps.{IsSmall, key_word, links_none};
ghost use Rattle.flit_one_key_laws.specs.OneKey.{one_key};
ghost use Rattle.flit_sched.specs.Openings.{AreRight, opened_run};
ghost use Rattle.flit_sample_runs.specs.Opened.{IsSampleOf};

use flit_model::Work;
use flit_place::Placement;
use flit_recover::Recovered;
use flit_rows::Pool;
use flit_sample::Sample;
use flit_sched::{Sched, recovered_opens};
use flit_words::{Layout, NoMemory};
use std::alloc::Global;

/// A run of the sample that starts at what recovery found, over the free rows found there. The error is NoMemory alone.
pub fn open_sample<P: Placement + Drop>(
    alloc: Global,
    layout: Layout,
    place: P,
    start: &Recovered,
    work: Vec<Work>,
) -> Result<Sched<Sample<P>>, NoMemory>
    requires small { IsSmall layout }
    requires found { IsRecovery layout start.now.image.words.items start.now.keys.items
        start.now.values.items start.now.free.items }
    requires unmarked { links_none (slice_index start.now.image.words.items 0) ≡ false →
        (link_in start.now.image.words.items (key_word layout + 1)).mark ≡ false }
    requires slots { (word : ℕ) → word < words_of layout →
        IsSlot (P.place place).counted layout.slots ((P.place place).slot word) }
    requires right { AreRight layout work.items }
    ensures structure { IfOk result (λ r. IsSampleOf r.structure layout place
        start.now.free.items) }
    ensures run { IfOk result (λ r. r.run ≡ opened_run
        (one_key layout (P.place place) start.now.free.items) start.now work.items) }
{
    recovered_opens();
    let pool = Pool::new(alloc, &start.free)?;
    Sched::open(alloc, Sample::new(layout, place, pool), start, work)
}
