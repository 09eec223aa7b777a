use super::*;
use flit_image::{read_image, view_image};
use flit_words::{Kind, Layout};
use std::alloc::Global;
use std::process::Abort;
use std::test::Fail;

const REMOVED: &[u8] =
    b"image 1\nstructure list\nrows 4\nword 0 3:8\nword 1 1:5\nword 2 2:1\nword 3 1:5\nword 4 1:0\nend\n";

const VALUED: &[u8] =
    b"image 2\nstructure list\nrows 2\nword 0 1:4\nword 1 1:7\nword 5 1:70\nend\n";

const NAMED_MARK: &[u8] =
    b"image 2\nstructure list\nrows 4\nword 0 1:4\nword 1 1:5\nword 2 2:16777217\nword 9 1:70\nend\n";

const TWO_CHAINS: &[u8] =
    b"image 1\nstructure hash 2\nrows 4\nword 0 1:4\nword 1 1:4\nword 2 1:0\nword 3 1:0\nend\n";

const FIXED_ROW: &[u8] = b"image 1\nstructure tree\nrows 1\nword 4 1:20\nend\n";

fn holds(rt: &impl Abort, found: &Recovered, keys: &[u32], values: &[u32], free: &[u32]) {
    assert_eq!(rt; found.keys.as_slice(), keys);
    assert_eq!(rt; found.values.as_slice(), values);
    assert_eq!(rt; found.free.as_slice(), free);
}

/// Recovers the image from its words, kept or given away, and from its text.
fn recovers(
    rt: &impl Abort,
    alloc: Global,
    text: &[u8],
    keys: &[u32],
    values: &[u32],
    free: &[u32],
) -> Result<(), Fail> {
    let image = read_image(alloc, text)?;
    let found = recover(alloc, &image).ok().ok_or("lawful")?;
    holds(rt, &found, keys, values, free);
    let view = view_image(alloc, text)?;
    let seen = recover_view(alloc, &view).ok().ok_or("lawful")?;
    holds(rt, &seen, keys, values, free);
    assert_eq!(rt; seen.image.words.as_slice(), image.words.as_slice());
    let given = recover_owned(alloc, image).ok().ok_or("lawful")?;
    holds(rt, &given, keys, values, free);
    assert_eq!(rt; given.image.words.as_slice(), found.image.words.as_slice());
    Ok(())
}

fn is_damaged(rt: &impl Abort, alloc: Global, text: &[u8], damage: Damage) -> Result<(), Fail> {
    let image = read_image(alloc, text)?;
    assert_eq!(rt; recover(alloc, &image).err(), Some(damage));
    let view = view_image(alloc, text)?;
    assert_eq!(rt; recover_view(alloc, &view).err(), Some(damage));
    assert_eq!(rt; recover_owned(alloc, image).err(), Some(damage));
    Ok(())
}

#[test]
fn a_removed_row_is_free(rt: HostRuntime) -> Result<(), Fail> {
    recovers(&rt, rt.alloc(), REMOVED, &[5], &[0], &[1, 3, 4])
}

#[test]
fn values_are_recovered(rt: HostRuntime) -> Result<(), Fail> {
    recovers(&rt, rt.alloc(), VALUED, &[7], &[70], &[2])?;
    recovers(&rt, rt.alloc(), NAMED_MARK, &[], &[], &[2, 3, 4])
}

#[test]
fn a_row_on_two_chains_is_shared(rt: HostRuntime) -> Result<(), Fail> {
    is_damaged(&rt, rt.alloc(), TWO_CHAINS, Damage::Shared { row: 1 })
}

#[test]
fn a_fixed_row_is_shared(rt: HostRuntime) -> Result<(), Fail> {
    is_damaged(&rt, rt.alloc(), FIXED_ROW, Damage::Shared { row: 5 })
}

#[test]
fn fresh_words_have_no_keys(rt: HostRuntime) -> Result<(), Fail> {
    let layout = Layout::new(Kind::Tree, 0, 2, 0, 1, 1).ok_or("accepted")?;
    let found = fresh(rt.alloc(), &layout)?;
    assert_eq!(rt; found.keys.len(), 0);
    assert_eq!(rt; found.free.as_slice(), &[6, 7][..]);
    assert_eq!(rt; found.image.words.len(), 21);
    Ok(())
}
