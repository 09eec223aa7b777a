ghost use Rattle.std.specs.Prelude.{◌≡◌, ◌≢◌, ℕ, ◌<◌, false, not, map, filter, length, slice_index, IfOk, OnOk, IfErr};
ghost use Rattle.std.specs.List.{range_with_len};
ghost use Rattle.flit_words.specs.Layouts.{Accepted, words_of, first_row_of, last_row_of};
ghost use Rattle.flit_words.specs.Words.{is_tagged};
ghost use Rattle.flit_model.specs.States.{fresh_words};
ghost use Rattle.flit_image.specs.Images.{IsWhole, layout_of};
ghost use Rattle.flit_recover.specs.ListWalks.{IsChainDamage, stands_in};
ghost use Rattle.flit_recover.specs.TreeWalks.{IsTreeDamage};
ghost use Rattle.flit_recover.specs.Marks.{AreMarks};
ghost use Rattle.flit_recover.specs.Damages.{IsTagDamage, IsWalkDamage, IsFirstDamage, IsRecovery};
ghost use Rattle.flit_recover.specs.Copies.{IsImageOf};

use crate::found::Damage;
use crate::list_walk::{pairs_of_rows, walk_lists};
use crate::marks::Reached;
use crate::pairs::{sort_pairs, split_pairs};
use crate::tree_walk::walk_tree;
use flit_image::ImageView;
use flit_model::{Image, Recovered};
use flit_words::{Kind, Layout, NoMemory, Word};
use std::alloc::{AllocError, Global};

/// Looks for the first word with a tag.
pub(crate) fn check_tags(layout: &Layout, words: &[u64]) -> Result<(), Damage>
    requires accepted { Accepted layout.now }
    requires whole { length words.now ≡ words_of layout.now }
    ensures untagged { OnOk result ((w : ℕ) → w < words_of layout.now →
        is_tagged (slice_index words.now w) ≡ false) }
    ensures damage { IfErr result (λ d. IsTagDamage layout.now words.now d) }
{
    for word in 0..layout.words() {
        if Word::unpack(words[word as usize]).tagged {
            return Err(Damage::TagSet { word });
        }
    }
    Ok(())
}

/// What a lawful image holds, without the image.
#[derive(Debug, Drop)]
struct Holding {
    keys: Vec<u32>,
    values: Vec<u32>,
    free: Vec<u32>,
}

impl Holding {
    /// What recovery answers of the image that these are the layout and the words of.
    fn within(self, layout: &Layout, words: Vec<u64>) -> Recovered
        ensures keys { result.keys.items ≡ self.keys.items }
        ensures values { result.values.items ≡ self.values.items }
        ensures free { result.free.items ≡ self.free.items }
        ensures image { IsImageOf layout.now result.image }
        ensures words { result.image.words.items ≡ words.items }
    {
        Recovered {
            keys: self.keys,
            values: self.values,
            free: self.free,
            image: Image {
                kind: layout.kind,
                buckets: layout.buckets,
                rows: layout.rows,
                values: layout.values,
                words,
            },
        }
    }
}

/// What the image holds, from the rows that were reached and the map's pairs in the order of their
/// keys.
fn assemble(
    alloc: Global,
    layout: &Layout,
    reached: &Reached,
    pairs: &[(u32, u32)],
) -> Result<Holding, Damage>
    requires accepted { Accepted layout.now }
    requires marks { AreMarks (last_row_of layout.now) reached.now.marks.items
        reached.now.rows.items }
    ensures keys { IfOk result (λ r. r.keys.items ≡ map (λ p. p.0) pairs.now) }
    ensures values { IfOk result (λ r. r.values.items ≡ map (λ p. p.1) pairs.now) }
    ensures free { IfOk result (λ r. r.free.items ≡ filter
        (λ row. not (stands_in reached.now.rows.items row))
        (range_with_len (first_row_of layout.now.kind) layout.now.rows)) }
    ensures err { IfErr result (λ d. d ≡ Damage.NoMemory) }
{
    let (keys, values) = split_pairs(alloc, pairs)?;
    let free = reached.free_rows(alloc, layout)?;
    Ok(Holding { keys, values, free })
}

/// Recovers a list or a hash table from its words, none of which has a tag.
fn recover_chains(alloc: Global, layout: &Layout, words: &[u64]) -> Result<Holding, Damage>
    requires accepted { Accepted layout.now }
    requires chained { layout.now.kind ≢ Kind.Tree }
    requires whole { length words.now ≡ words_of layout.now }
    requires untagged { (w : ℕ) → w < words_of layout.now →
        is_tagged (slice_index words.now w) ≡ false }
    ensures recovery { IfOk result (λ r. IsRecovery layout.now words.now r.keys.items r.values.items
        r.free.items) }
    ensures damage { IfErr result (λ d. d ≢ Damage.NoMemory →
        IsChainDamage layout.now words.now d) }
{
    let found = walk_lists(alloc, layout, words)?;
    let rows = found.reached.rows.as_slice();
    let mut pairs = pairs_of_rows(alloc, layout, words, rows, found.count)?;
    sort_pairs(&mut pairs);
    assemble(alloc, layout, &found.reached, pairs.as_slice())
}

/// Recovers a tree from its words, none of which has a tag.
fn recover_grown(alloc: Global, layout: &Layout, words: &[u64]) -> Result<Holding, Damage>
    requires accepted { Accepted layout.now }
    requires grown { layout.now.kind ≡ Kind.Tree }
    requires whole { length words.now ≡ words_of layout.now }
    requires untagged { (w : ℕ) → w < words_of layout.now →
        is_tagged (slice_index words.now w) ≡ false }
    ensures recovery { IfOk result (λ r. IsRecovery layout.now words.now r.keys.items r.values.items
        r.free.items) }
    ensures damage { IfErr result (λ d. d ≢ Damage.NoMemory → IsTreeDamage layout.now words.now d) }
{
    let found = walk_tree(alloc, layout, words)?;
    assemble(alloc, layout, &found.reached, found.pairs.as_slice())
}

/// Recovers the structure that the layout names from its words, none of which has a tag.
fn recover_untagged(alloc: Global, layout: &Layout, words: &[u64]) -> Result<Holding, Damage>
    requires accepted { Accepted layout.now }
    requires whole { length words.now ≡ words_of layout.now }
    requires untagged { (w : ℕ) → w < words_of layout.now →
        is_tagged (slice_index words.now w) ≡ false }
    ensures recovery { IfOk result (λ r. IsRecovery layout.now words.now r.keys.items r.values.items
        r.free.items) }
    ensures damage { IfErr result (λ d. d ≢ Damage.NoMemory → IsWalkDamage layout.now words.now d) }
{
    match layout.kind {
        Kind::Tree => recover_grown(alloc, layout, words),
        _ => recover_chains(alloc, layout, words),
    }
}

/// Recovers the structure that the layout names from its words.
fn recover_words(alloc: Global, layout: &Layout, words: &[u64]) -> Result<Holding, Damage>
    requires accepted { Accepted layout.now }
    requires whole { length words.now ≡ words_of layout.now }
    ensures recovery { IfOk result (λ r. IsRecovery layout.now words.now r.keys.items r.values.items
        r.free.items) }
    ensures damage { IfErr result (λ d. d ≢ Damage.NoMemory →
        IsFirstDamage layout.now words.now d) }
{
    check_tags(layout, words)?;
    recover_untagged(alloc, layout, words)
}

/// What a lawful image holds: the keys of its map in rising order, with their values, and the rows that no link
/// reaches, with a copy of the image. An error is the first damage on the walk, or NoMemory.
pub fn recover(alloc: Global, image: &Image) -> Result<Recovered, Damage>
    requires { IsWhole image.now }
    ensures recovery { IfOk result (λ r. IsRecovery (layout_of image.now) image.now.words.items
        r.keys.items r.values.items r.free.items) }
    ensures image { IfOk result (λ r. IsImageOf (layout_of image.now) r.image) }
    ensures words { IfOk result (λ r. r.image.words.items ≡ image.now.words.items) }
    ensures damage { IfErr result (λ d. d ≢ Damage.NoMemory →
        IsFirstDamage (layout_of image.now) image.now.words.items d) }
{
    let layout = image.layout();
    let holding = recover_words(alloc, &layout, image.words.as_slice())?;
    let copy = Vec::from_slice(alloc, image.words.as_slice())?;
    Ok(holding.within(&layout, copy))
}

/// The same for an image that is given away: its words go into the answer, and none is copied.
pub fn recover_owned(alloc: Global, image: Image) -> Result<Recovered, Damage>
    requires { IsWhole image }
    ensures recovery { IfOk result (λ r. IsRecovery (layout_of image) image.words.items r.keys.items
        r.values.items r.free.items) }
    ensures image { IfOk result (λ r. IsImageOf (layout_of image) r.image) }
    ensures words { IfOk result (λ r. r.image.words.items ≡ image.words.items) }
    ensures damage { IfErr result (λ d. d ≢ Damage.NoMemory →
        IsFirstDamage (layout_of image) image.words.items d) }
{
    let layout = image.layout();
    let holding = recover_words(alloc, &layout, image.words.as_slice())?;
    Ok(holding.within(&layout, image.words))
}

/// The same for an image that is seen in its text.
pub fn recover_view(alloc: Global, view: &ImageView<'_>) -> Result<Recovered, Damage>
    ensures recovery { IfOk result (λ r. IsRecovery view.now.layout view.now.words r.keys.items
        r.values.items r.free.items) }
    ensures image { IfOk result (λ r. IsImageOf view.now.layout r.image) }
    ensures words { IfOk result (λ r. r.image.words.items ≡ view.now.words) }
    ensures damage { IfErr result (λ d. d ≢ Damage.NoMemory →
        IsFirstDamage view.now.layout view.now.words d) }
{
    let layout = view.layout();
    let holding = recover_words(alloc, &layout, view.words())?;
    let copy = Vec::from_slice(alloc, view.words())?;
    Ok(holding.within(&layout, copy))
}

fn initial_words(alloc: Global, layout: &Layout) -> Result<Vec<u64>, AllocError>
    requires { Accepted layout.now }
    ensures { IfOk result (λ w. w.items ≡ fresh_words layout.now) }
{
    let mut words = Vec::with_capacity(alloc, layout.words() as usize)?;
    for word in 0..layout.words() {
        words.push_reserved(u64::from(layout.initial(word)));
    }
    Ok(words)
}

fn all_rows(alloc: Global, layout: &Layout) -> Result<Vec<u32>, AllocError>
    requires { Accepted layout.now }
    ensures { IfOk result (λ r. r.items ≡ range_with_len (first_row_of layout.now.kind)
        layout.now.rows) }
{
    let mut rows = Vec::with_capacity(alloc, layout.rows as usize)?;
    for row in layout.first_row()..layout.last_row() + 1 {
        rows.push_reserved(row);
    }
    Ok(rows)
}

/// What recovery answers for the fresh words of a layout: no keys, and all rows free.
pub fn fresh(alloc: Global, layout: &Layout) -> Result<Recovered, NoMemory>
    requires { Accepted layout.now }
    ensures recovery { IfOk result (λ r. IsRecovery layout.now (fresh_words layout.now) r.keys.items
        r.values.items r.free.items) }
    ensures image { IfOk result (λ r. IsImageOf layout.now r.image) }
    ensures words { IfOk result (λ r. r.image.words.items ≡ fresh_words layout.now) }
{
    Ok(Recovered {
        keys: Vec::new(alloc),
        values: Vec::new(alloc),
        free: all_rows(alloc, layout)?,
        image: Image {
            kind: layout.kind,
            buckets: layout.buckets,
            rows: layout.rows,
            values: layout.values,
            words: initial_words(alloc, layout)?,
        },
    })
}
