ghost use Rattle.std.specs.Prelude.{◌≡◌, ℕ, ◌+◌, ◌<◌, false, IfOk, slice_index};
ghost use Rattle.flit_words.specs.Layouts.{words_of};
ghost use Rattle.flit_model.specs.Lists.{link_in};
ghost use Rattle.flit_place.specs.Tags.{IsSlot};
ghost use Rattle.flit_model.specs.Recovery.{IsRecovery};
ghost use Rattle.flit_one_key.specs.Steps.{IsSmall, key_word, links_none};
ghost use Rattle.flit_sample.specs.Sampling.{sample};
ghost use Rattle.flit_table.specs.Passes.{MayWork, IsFirst, own_names, own_calls};

use flit_place::Placement;
use flit_recover::Recovered;
use flit_rows::Pool;
use flit_sample::Sample;
use flit_sched::recovered_opens;
use flit_table::{Pass, Running};
use flit_words::{Layout, NoMemory};
use std::alloc::Global;

/// The sample on shared words, which starts at what recovery found, over the free rows found there, and a pass with all
/// names. The error is NoMemory alone.
pub fn open_words<P: Placement + Drop>(
    alloc: Global,
    layout: Layout,
    place: P,
    start: Recovered,
) -> Result<(Running<Sample<P>>, Pass<Sample<P>>), NoMemory>
    requires small { IsSmall layout }
    requires found { IsRecovery layout start.image.words.items start.keys.items start.values.items
        start.free.items }
    requires unmarked { links_none (slice_index start.image.words.items 0) ≡ false →
        (link_in start.image.words.items (key_word layout + 1)).mark ≡ false }
    requires slots { (word : ℕ) → word < words_of layout →
        IsSlot (P.place place).counted layout.slots ((P.place place).slot word) }
    ensures works { IfOk result (λ r. MayWork (sample P.place) r.0 r.1) }
    ensures first { IfOk result (λ r. (own_names r.1 ≡ layout.workers) × (own_calls r.1 ≡ 0)) }
    ensures opening { IfOk result (λ r. IsFirst (sample P.place r.0.origin.structure.value)
        r.0.origin r.1) }
    ensures layout { IfOk result (λ r. r.0.origin.structure.value.layout ≡ layout) }
{
    recovered_opens();
    let pool = Pool::new(alloc, &start.free)?;
    Running::open(alloc, Sample::new(layout, place, pool), start)
}
