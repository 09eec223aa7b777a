ghost use Rattle.std.specs.Prelude.{◌≡◌, ◌≢◌, ℕ, ◌<◌, false, length, slice_index, IfOk, IfErr};
ghost use Rattle.flit_words.specs.Layouts.{Accepted, words_of};
ghost use Rattle.flit_words.specs.Words.{is_tagged};
ghost use Rattle.flit_image.specs.Images.{IsWhole, layout_of};
ghost use Rattle.flit_recover.specs.ListWalks.{IsChainDamage};
ghost use Rattle.flit_recover.specs.TreeWalks.{IsTreeDamage};
ghost use Rattle.flit_recover.specs.Damages.{IsWalkDamage, IsFirstDamage};
ghost use Rattle.flit_recover.specs.KeyCounts.{HasKeys};

use crate::found::Damage;
use crate::list_walk::walk_lists;
use crate::recovery::check_tags;
use crate::tree_walk::walk_tree;
use flit_model::Image;
use flit_words::{Kind, Layout};
use std::alloc::Global;

/// How many keys a list or a hash table has in its words, none of which has a tag.
fn count_in_chains(alloc: Global, layout: &Layout, words: &[u64]) -> Result<usize, Damage>
    requires accepted { Accepted layout.now }
    requires chained { layout.now.kind ≢ Kind.Tree }
    requires whole { length words.now ≡ words_of layout.now }
    requires untagged { (w : ℕ) → w < words_of layout.now →
        is_tagged (slice_index words.now w) ≡ false }
    ensures keys { IfOk result (HasKeys layout.now words.now) }
    ensures damage { IfErr result (λ d. d ≢ Damage.NoMemory →
        IsChainDamage layout.now words.now d) }
{
    let found = walk_lists(alloc, layout, words)?;
    Ok(found.count)
}

/// How many keys a tree has in its words, none of which has a tag.
fn count_in_tree(alloc: Global, layout: &Layout, words: &[u64]) -> Result<usize, Damage>
    requires accepted { Accepted layout.now }
    requires grown { layout.now.kind ≡ Kind.Tree }
    requires whole { length words.now ≡ words_of layout.now }
    requires untagged { (w : ℕ) → w < words_of layout.now →
        is_tagged (slice_index words.now w) ≡ false }
    ensures keys { IfOk result (HasKeys layout.now words.now) }
    ensures damage { IfErr result (λ d. d ≢ Damage.NoMemory → IsTreeDamage layout.now words.now d) }
{
    let found = walk_tree(alloc, layout, words)?;
    Ok(found.pairs.len())
}

/// How many keys the structure that the layout names has in its words, none of which has a tag.
fn count_untagged(alloc: Global, layout: &Layout, words: &[u64]) -> Result<usize, Damage>
    requires accepted { Accepted layout.now }
    requires whole { length words.now ≡ words_of layout.now }
    requires untagged { (w : ℕ) → w < words_of layout.now →
        is_tagged (slice_index words.now w) ≡ false }
    ensures keys { IfOk result (HasKeys layout.now words.now) }
    ensures damage { IfErr result (λ d. d ≢ Damage.NoMemory → IsWalkDamage layout.now words.now d) }
{
    match layout.kind {
        Kind::Tree => count_in_tree(alloc, layout, words),
        _ => count_in_chains(alloc, layout, words),
    }
}

/// The same of words that may have tags.
fn count_in_words(alloc: Global, layout: &Layout, words: &[u64]) -> Result<usize, Damage>
    requires accepted { Accepted layout.now }
    requires whole { length words.now ≡ words_of layout.now }
    ensures keys { IfOk result (HasKeys layout.now words.now) }
    ensures damage { IfErr result (λ d. d ≢ Damage.NoMemory →
        IsFirstDamage layout.now words.now d) }
{
    check_tags(layout, words)?;
    count_untagged(alloc, layout, words)
}

/// How many keys recovery finds in an image: as many as `recover` answers, without putting them in order. An error is the
/// first damage on the walk, or NoMemory.
pub fn count_keys(alloc: Global, image: &Image) -> Result<usize, Damage>
    requires { IsWhole image.now }
    ensures keys { IfOk result (HasKeys (layout_of image.now) image.now.words.items) }
    ensures damage { IfErr result (λ d. d ≢ Damage.NoMemory →
        IsFirstDamage (layout_of image.now) image.now.words.items d) }
{
    let layout = image.layout();
    count_in_words(alloc, &layout, image.words.as_slice())
}
