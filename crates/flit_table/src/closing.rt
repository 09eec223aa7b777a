ghost use Rattle.std.specs.Prelude.{◌≡◌, ℕ, [], ◌+◌, ◌*◌, ◌<◌, ◌≤◌, ◌==◌, true, false, None, Some, IfOk};
ghost use Rattle.std.specs.List.{list_any};
ghost use Rattle.std.specs.Vec.{vec_capacity, vec_len};
ghost use Rattle.std.specs.Mem.Slots.{IsFull, slots_len, slots_items};
ghost use Rattle.flit_model.specs.Recovery.{IsImageOf};
ghost use Rattle.flit_table.specs.Passes.{BelongsTo, view_of};
ghost use Rattle.flit_table.specs.Closing.{Closes, told_by, picks_of, taken_word, word_in, image_in, known_in};
ghost use Rattle.flit_table.specs.Steps.{Home, meaning_of};

use crate::passes::{Holder, Pass};
use crate::running::Running;
use crate::told::{Evidence, Told, tell};
use atomic_table::Closed;
use flit_model::{Ahead, Image};
use flit_structure::Structure;
use flit_words::{NoMemory, Word, bare};
use std::alloc::Global;
use std::snapshot::Snapshot;

impl<S: Structure> Running<S> {
    /// The end of a running structure: the image that the words then give, and what is told of it and of what the pass
    /// has seen and made. The error is NoMemory alone; the structure is given up then, too.
    ///
    /// It is taken out of the reference, since a caller that names its structure can't pass it by value.
    pub fn close(
        running: &mut Option<Running<S>>,
        alloc: Global,
        pass: Pass<S>,
        ahead: &Ahead,
    ) -> Result<(Image, Told), NoMemory>
        requires { (home : Home S) × (running.old ≡ Some home) × BelongsTo S.meaning home pass }
        ensures gone { running.new ≡ None }
        ensures closes { IfOk result (λ r. (home : Home S) → running.old ≡ Some home →
            Closes (meaning_of S.meaning home) home.origin (view_of pass) (picks_of ahead.now)
            r.0.words.items) }
        ensures shape { IfOk result (λ r. (home : Home S) → running.old ≡ Some home →
            IsImageOf (meaning_of S.meaning home).layout r.0) }
        ensures told { IfOk result (λ r. (home : Home S) → running.old ≡ Some home →
            told_by r.1 ≡ known_in (meaning_of S.meaning home).layout ahead.now r.0
            (view_of pass)) }
    {
        let Some(inside) = running.take() else {
            unreachable!()
        };
        let Running {
            structure,
            table,
            room,
        } = inside;
        let layout = *structure.layout();
        let count = layout.words();
        let Pass { held } = pass;
        let was = Snapshot::of(&held);
        let Holder {
            seat,
            name: _,
            names: _,
            calls: _,
            rest: _,
        } = held;
        let closed = table.close_with(seat);
        let words = image_of_table(room, &closed, count, ahead);
        closed.free();
        let image = Image {
            kind: layout.kind,
            buckets: layout.buckets,
            rows: layout.rows,
            values: layout.values,
            words: words?,
        };
        let evidence = Evidence {
            layout: Snapshot::of(&layout),
            ahead: Snapshot::of(ahead),
            image: Snapshot::of(&image),
            held: was,
        };
        let told = tell(alloc, &evidence)?;
        Ok((image, told))
    }
}

// The value ahead, or the shadow where the word isn't ahead.
fn taken_or_kept(word: u64, shadow: u64) -> u64
    ensures { result ≡ taken_word true word shadow }
{
    let is_ahead = Word::unpack(word).version == Word::unpack(shadow).version + 1;
    if is_ahead { bare(word) } else { shadow }
}

// What an image has of a word whose value ahead it takes.
fn image_word(closed: &Closed<u64, Global>, count: u32, word: u32) -> u64
    requires full { IsFull closed.now.words }
    requires long { 2 * count < slots_len closed.now.words }
    requires within { word < count }
    ensures { result ≡ word_in (slots_items closed.now.words) count true word }
{
    let at = word as usize + 1;
    let now = closed.word(at);
    let shadow = closed.word(count as usize + at);
    taken_or_kept(now, shadow)
}

// The memory of a list that is no longer needed, with room for so many words.
fn emptied(mut room: Vec<u64>, count: u32) -> Result<Vec<u64>, NoMemory>
    ensures items { IfOk result (λ v. v.items ≡ []) }
    ensures len { IfOk result (λ v. vec_len v ≡ 0) }
    ensures capacity { IfOk result (λ v. count ≤ vec_capacity v) }
{
    room.clear();
    room.reserve_exact(count as usize)?;
    Ok(room)
}

// The image that takes no value ahead: the shadows.
fn image_of_shadows(
    room: Vec<u64>,
    closed: &Closed<u64, Global>,
    count: u32,
) -> Result<Vec<u64>, NoMemory>
    requires full { IsFull closed.now.words }
    requires long { 2 * count < slots_len closed.now.words }
    ensures { IfOk result (λ v. v.items ≡ image_in (λ w. false) count
        (slots_items closed.now.words)) }
{
    let mut image = emptied(room, count)?;
    for word in 0..count {
        let shadow = closed.word(count as usize + (word as usize + 1));
        image.push_reserved(shadow);
    }
    Ok(image)
}

// The image that takes all values ahead.
fn image_with_all(
    room: Vec<u64>,
    closed: &Closed<u64, Global>,
    count: u32,
) -> Result<Vec<u64>, NoMemory>
    requires full { IsFull closed.now.words }
    requires long { 2 * count < slots_len closed.now.words }
    ensures { IfOk result (λ v. v.items ≡ image_in (λ w. true) count
        (slots_items closed.now.words)) }
{
    let mut image = emptied(room, count)?;
    for word in 0..count {
        image.push_reserved(image_word(closed, count, word));
    }
    Ok(image)
}

// Takes the values ahead of some words into an image that takes none.
fn take_ahead(closed: &Closed<u64, Global>, count: u32, image: &mut Vec<u64>, chosen: &[u32])
    requires full { IsFull closed.now.words }
    requires long { 2 * count < slots_len closed.now.words }
    requires none { image.old.items ≡ image_in (λ w. false) count (slots_items closed.now.words) }
    ensures { image.new.items ≡ image_in (λ w. list_any (λ v. v == w) chosen.now) count
        (slots_items closed.now.words) }
{
    for word in chosen {
        if *word < count {
            image[*word as usize] = image_word(closed, count, *word);
        }
    }
}

// The image of a table at its end.
fn image_of_table(
    room: Vec<u64>,
    closed: &Closed<u64, Global>,
    count: u32,
    ahead: &Ahead,
) -> Result<Vec<u64>, NoMemory>
    requires full { IsFull closed.now.words }
    requires long { 2 * count < slots_len closed.now.words }
    ensures { IfOk result (λ v. v.items ≡ image_in (picks_of ahead.now) count
        (slots_items closed.now.words)) }
{
    match ahead {
        Ahead::None => image_of_shadows(room, closed, count),
        Ahead::All => image_with_all(room, closed, count),
        Ahead::Words(chosen) => {
            let mut image = image_of_shadows(room, closed, count)?;
            take_ahead(closed, count, &mut image, chosen.as_slice());
            Ok(image)
        }
    }
}
