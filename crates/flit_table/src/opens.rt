ghost use Rattle.std.specs.Prelude.{◌≡◌, [], ◌∷◌, ◌++◌, IfOk, OnOk, replicate};
ghost use Rattle.flit_table.specs.Passes.{BelongsTo, IsFirst};
ghost use Rattle.flit_table.specs.Views.{opening_at};

use crate::passes::{Holder, Pass, Rest};
use crate::running::Running;
use crate::views::Origin;
use atomic_table::Table;
use flit_model::{Image, Recovered};
use flit_pv::Hand;
use flit_structure::Structure;
use flit_words::NoMemory;
use std::alloc::Global;
use std::snapshot::Snapshot;

impl<S: Structure> Running<S> {
    /// The words at rest, as recovery found them, and a pass that owns all names and has seen nothing. The error is
    /// NoMemory alone.
    pub fn open(
        alloc: Global,
        structure: S,
        start: Recovered,
    ) -> Result<(Running<S>, Pass<S>), NoMemory>
        requires { (S.meaning structure).opens (opening_at start) }
        ensures origin { IfOk result (λ r. (r.0.origin.structure.value ≡ structure)
            × (r.0.origin.start.value ≡ start)) }
        ensures pass { IfOk result (λ r. BelongsTo S.meaning r.0 r.1) }
        ensures first { IfOk result (λ r. IsFirst (S.meaning structure) r.0.origin r.1) }
    {
        let layout = *structure.layout();
        let origin = Origin {
            structure: Snapshot::of(&structure),
            start: Snapshot::of(&start),
        };
        let mut room = words_of(start);
        let count = room.len();
        become_table(&mut room, layout.slots)?;
        let (table, seat) = Table::of_words(alloc, room.as_slice(), &origin)?;
        room.truncate(count);
        room.shrink_to_fit();
        let pass = Pass {
            held: Holder {
                seat,
                name: 1,
                names: layout.workers,
                calls: 0,
                rest: Rest::Hand(Hand::first(1)),
            },
        };
        Ok((
            Running {
                structure,
                table,
                room,
            },
            pass,
        ))
    }
}

// The words of the image that recovery took; all else is let go.
fn words_of(start: Recovered) -> Vec<u64>
    ensures { result.items ≡ start.image.words.items }
{
    let Recovered {
        keys: _,
        values: _,
        free: _,
        image,
    } = start;
    let Image {
        kind: _,
        buckets: _,
        rows: _,
        values: _,
        words,
    } = image;
    words
}

// Makes the words of an image those of a table, where they stand: word 0, the words, the shadows, which are the same, the
// slots and the row counter, at 0.
fn become_table(words: &mut Vec<u64>, slots: u32) -> Result<(), NoMemory>
    ensures { OnOk result (words.new.items ≡ 0 ∷ (words.old.items
        ++ (words.old.items ++ (replicate slots 0 ++ 0 ∷ [])))) }
{
    let image = words.len();
    let count = image.saturating_mul(2).saturating_add(slots as usize);
    words.reserve_exact(count.saturating_add(2) - image)?;
    words.insert(0, 0)?;
    words.extend_from_within(1..)?;
    words.resize(count.saturating_add(1), 0)?;
    words.push(0)?;
    Ok(())
}
