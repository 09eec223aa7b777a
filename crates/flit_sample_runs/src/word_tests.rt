ghost use Rattle.std.specs.Prelude.{◌≡◌, ℕ, ◌≤◌, ◌<◌, ◌∷◌, [], IfOk, true};
ghost use Rattle.flit_words.specs.declared.layouts.Layout.{Layout as A_layout};
ghost use Rattle.flit_words.specs.Layouts.{words_of};
ghost use Rattle.flit_model.specs.Recovery.{IsWhole};
ghost use Rattle.flit_one_key.specs.Steps.{IsSmall};
ghost use Rattle.flit_sample.specs.Sampling.{sample};
ghost use Rattle.flit_table.specs.Passes.{MayWork, BelongsTo, own_names, own_calls};

use crate::open_words;
use flit_hashed::Hashed;
use flit_image::Image;
use flit_model::{Ahead, Call, Reply};
use flit_packed::Packed;
use flit_place::{Adjacent, Placement};
use flit_recover::{Recovered, fresh, recover};
use flit_sample::Sample;
use flit_table::{Pass, Running, Within};
use flit_words::{Kind, Layout, Link, Word};
use std::alloc::Global;
use std::process::Abort;
use std::test::Fail;

/// A layout of one row with values, for two workers.
fn layout_of<P: Placement>(rt: &impl Abort, place: &P) -> Layout
    ensures small { IsSmall result }
    ensures workers { result.workers ≡ 2 }
    ensures valued { result.values ≡ true }
    ensures slots { result.slots ≡ P.slots_for place.now (words_of result) }
{
    let slots = place.slots(4);
    assert!(rt; slots <= 4194320);
    Layout {
        kind: Kind::List,
        buckets: 1,
        rows: 1,
        slots,
        workers: 2,
        limit: 100,
        values: true,
    }
}

/// The sample on fresh words.
fn opened<P: Placement + Drop>(
    rt: &impl Abort,
    alloc: Global,
    place: P,
) -> Result<(Running<Sample<P>>, Pass<Sample<P>>), Fail>
    ensures works { IfOk result (λ r. MayWork (sample P.place) r.0 r.1) }
    ensures first { IfOk result (λ r. (own_names r.1 ≡ 2) × (own_calls r.1 ≡ 0)) }
    ensures valued { IfOk result (λ r. r.0.origin.structure.value.layout.values ≡ true) }
{
    let layout = layout_of(rt, &place);
    let start = fresh(alloc, &layout)?;
    let link_word = layout.row_word(1, 1) as usize;
    assert!(rt; link_word < start.image.words.len());
    assert!(rt; !Link::of(Word::unpack(start.image.words[link_word]).value).mark);
    Ok(open_words(alloc, layout, place, start)?)
}

fn is_whole(rt: &impl Abort, image: &Image)
    ensures { IsWhole image.now }
{
    assert!(rt; image.kind == Kind::List);
    assert!(rt; image.buckets == 1);
    assert!(rt; image.rows == 1);
    assert!(rt; image.words.len() == image.layout().words() as usize);
}

/// What recovery finds at the end of a running structure.
fn found_at_end<P: Placement + Drop>(
    rt: &impl Abort,
    alloc: Global,
    running: Running<Sample<P>>,
    pass: Pass<Sample<P>>,
    ahead: &Ahead,
) -> Result<Recovered, Fail>
    requires { BelongsTo (sample P.place) running pass }
{
    let mut running = Some(running);
    let (image, _told) = Running::close(&mut running, alloc, pass, ahead)?;
    is_whole(rt, &image);
    match recover(alloc, &image) {
        Ok(found) => Ok(found),
        Err(_) => Err(Fail::from("damaged")),
    }
}

/// An insert that may make so many events; answers how many it made, and how many keys there are at the end.
fn one_insert<P: Placement + Drop>(
    rt: &impl Abort,
    alloc: Global,
    place: P,
    steps: u64,
    ahead: &Ahead,
) -> Result<(Option<u64>, usize), Fail> {
    let (running, mut pass) = opened(rt, alloc, place)?;
    let within = running.answer_within(&mut pass, Call::Insert(7, 9), steps);
    let made = match within {
        Within::Done { reply, made } => {
            assert_eq!(rt; reply, Reply::Yes);
            Some(made)
        }
        Within::Stopped => None,
    };
    assert_eq!(rt; pass.is_stopped(), made.is_none());
    let found = found_at_end(rt, alloc, running, pass, ahead)?;
    Ok((made, found.keys.len()))
}

/// With every number of steps: the key is there exactly once the call has its reply, or the values ahead are taken.
fn at_each_step<P: Placement + Drop + Copy>(
    rt: &impl Abort,
    alloc: Global,
    place: P,
) -> Result<(), Fail> {
    let mut done = 0_u64;
    for steps in 0..61 {
        let (made, keys) = one_insert(rt, alloc, place, steps, &Ahead::None)?;
        let (same, taken) = one_insert(rt, alloc, place, steps, &Ahead::All)?;
        assert_eq!(rt; made, same);
        assert!(rt; keys <= taken && taken <= 1);
        if let Some(made) = made {
            assert!(rt; made <= steps);
            assert_eq!(rt; keys, 1);
            done = done.saturating_add(1);
        }
    }
    assert!(rt; done > 0 && done < 61);
    Ok(())
}

#[test]
fn a_call_stops_anywhere(rt: HostRuntime) -> Result<(), Fail> {
    at_each_step(&rt, rt.alloc(), Adjacent)?;
    at_each_step(&rt, rt.alloc(), Hashed { slots: 3 })?;
    at_each_step(&rt, rt.alloc(), Packed)
}

/// A pass puts a key in; another, split off before, finds it and writes the head back; and the two are joined.
fn two_passes<P: Placement + Drop + Copy>(
    rt: &impl Abort,
    alloc: Global,
    place: P,
) -> Result<(), Fail> {
    let (running, mut pass) = opened(rt, alloc, place)?;
    let mut other = running.split(&mut pass, 1);
    assert_eq!(rt; (pass.name(), pass.names()), (1, 1));
    assert_eq!(rt; (other.name(), other.names()), (2, 1));
    let put = running.answer_within(&mut pass, Call::Insert(7, 9), 1000);
    let Within::Done { reply, .. } = put else {
        return Err(Fail::from("stopped"));
    };
    assert_eq!(rt; reply, Reply::Yes);
    let got = running.answer_within(&mut other, Call::Get(7), 1000);
    let Within::Done { reply, made } = got else {
        return Err(Fail::from("stopped"));
    };
    assert_eq!(rt; reply, Reply::Found { value: 9 });
    assert!(rt; made > 0);
    assert!(rt; running.evict(&mut other, 0, 2));
    assert!(rt; !other.is_stopped());
    assert_eq!(rt; other.calls(), 1);
    assert!(rt; running.tally(&other).persists > 0);
    running.join(&mut pass, other);
    assert_eq!(rt; (pass.name(), pass.names(), pass.calls()), (1, 1, 1));
    let found = found_at_end(rt, alloc, running, pass, &Ahead::None)?;
    assert_eq!(rt; found.keys.as_slice(), [7].as_slice());
    assert_eq!(rt; found.values.as_slice(), [9].as_slice());
    Ok(())
}

#[test]
fn passes_part_and_join(rt: HostRuntime) -> Result<(), Fail> {
    two_passes(&rt, rt.alloc(), Adjacent)?;
    two_passes(&rt, rt.alloc(), Hashed { slots: 3 })?;
    two_passes(&rt, rt.alloc(), Packed)
}
