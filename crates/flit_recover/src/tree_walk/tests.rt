ghost use Rattle.std.specs.Prelude.{◌≡◌, ℕ, ◌<◌, length, slice_index, false, IsTrue};
ghost use Rattle.flit_words.specs.Words.{is_tagged};

use super::*;
use flit_words::Word;
use std::process::Abort;
use std::test::Fail;

fn has_no_tag(words: &[u64]) -> bool
    ensures { IsTrue result → (w : ℕ) → w < length words.now →
        is_tagged (slice_index words.now w) ≡ false }
{
    for word in words {
        if Word::unpack(*word).tagged {
            return false;
        }
    }
    true
}

fn walked(rt: &impl Abort, alloc: Global, rows: u32, words: &[u64]) -> Result<TreeReached, Damage> {
    let layout = Layout::new(Kind::Tree, 0, rows, 0, 1, 1).expect(rt, "a layout");
    assert_eq!(rt; words.len(), layout.words() as usize);
    assert!(rt; has_no_tag(words));
    walk_tree(alloc, &layout, words)
}

/// A value that a word has had since it was fresh.
const LATER: u64 = 1 << 33;

#[test]
fn a_fresh_tree_has_no_pairs(rt: HostRuntime) -> Result<(), Fail> {
    let words = [
        4294967295, 8, 20, 4294967294, 12, 16, 4294967293, 0, 0, 4294967294, 0, 0, 4294967295, 0,
        0, 0, 0, 0,
    ];
    let found = walked(&rt, rt.alloc(), 1, &words)?;
    assert_eq!(rt; found.pairs.len(), 0);
    assert_eq!(rt;
        found.reached.marks.as_slice(),
        [false, true, true, true, true, true, false].as_slice()
    );
    Ok(())
}

#[test]
fn a_fixed_row_is_shared(rt: HostRuntime) {
    let words = [
        4294967295,
        8,
        20,
        4294967294,
        LATER + 20,
        16,
        4294967293,
        0,
        0,
        4294967294,
        0,
        0,
        4294967295,
        0,
        0,
        0,
        0,
        0,
    ];
    assert_eq!(rt;
        walked(&rt, rt.alloc(), 1, &words).err(),
        Some(Damage::Shared { row: 5 })
    );
}

#[test]
fn leaves_give_their_pairs(rt: HostRuntime) -> Result<(), Fail> {
    let mut words = [
        4294967295,
        8,
        20,
        4294967294,
        LATER + 28,
        16,
        4294967293,
        0,
        0,
        4294967294,
        0,
        0,
        4294967295,
        0,
        0,
        LATER + 9,
        0,
        0,
        LATER + 4294967293,
        LATER + 36,
        LATER + 12,
        LATER + 5,
        0,
        0,
        LATER + 9,
        LATER + 32,
        LATER + 24,
    ];
    let both = walked(&rt, rt.alloc(), 4, &words)?;
    assert_eq!(rt; both.pairs.as_slice(), [(5, 0), (9, 0)].as_slice());
    words[25] = LATER + LATER + 33;
    let one = walked(&rt, rt.alloc(), 4, &words)?;
    assert_eq!(rt; one.pairs.as_slice(), [(9, 0)].as_slice());
    Ok(())
}
