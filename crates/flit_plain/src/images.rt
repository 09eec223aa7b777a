ghost use Rattle.std.specs.Prelude.{◌≡◌, ◌≢◌, ℕ, ◌<◌, ◌↔◌, List, filter, slice_index, IsTrue, IfOk, IfNone, IfSome, EachIndex, false};
ghost use Rattle.std.specs.List.{range_with_len};
ghost use Rattle.std.specs.Ordering.{nat_cmp};
ghost use Rattle.std.specs.FinMap as map_of_pairs;
ghost use Rattle.flit_words.specs.declared.layouts.Kind.TheVariants.{Tree as Tree_kind};
ghost use Rattle.flit_words.specs.Words.{is_tagged};
ghost use Rattle.flit_words.specs.Layouts.{Accepted, first_row_of};
ghost use Rattle.flit_model.specs.Lists.{IsLawfulList};
ghost use Rattle.flit_model.specs.Images.{Shape, IsLawful, IsLawfulAs, map_in, reached_rows};
ghost use Rattle.flit_plain.specs.Walks.{IsSizedImage};
ghost use Rattle.flit_plain.specs.Finding.{Finds, is_absent};

use crate::chains::{is_lawful_chain, reached_by_chains};
use crate::reached::Reached;
use crate::trees::{is_lawful_tree, reached_by_tree};
use flit_words::{Kind, Layout, NoMemory, Word};
use std::alloc::Global;
use std::collections::BTreeMap;

/// What recovery finds in an image.
#[derive(Debug, Drop)]
pub struct Found {
    /// The keys with their values, 0 in a layout without values, by rising keys.
    pub pairs: Vec<(u32, u32)>,
    /// The rows that a call may be given and that no link leads to, in rising order.
    pub free: Vec<u32>,
}

fn are_untagged(words: &[u64]) -> bool
    ensures { IsTrue result ↔ EachIndex words.now
        (λ w. is_tagged (slice_index words.now w) ≡ false) }
{
    for word in words {
        if Word::unpack(*word).tagged {
            return false;
        }
    }
    true
}

fn is_lawful_list(layout: &Layout, words: &[u64]) -> bool
    requires image { IsSizedImage layout.now words.now }
    requires chained { layout.now.kind ≢ Tree_kind }
    requires untagged { EachIndex words.now (λ w. is_tagged (slice_index words.now w) ≡ false) }
    ensures { IsTrue result ↔ ((chain : ℕ → List ℕ) × IsLawfulList layout.now words.now chain) }
{
    for head in 0..layout.buckets {
        if !is_lawful_chain(layout, words, head) {
            return false;
        }
    }
    true
}

/// Whether the words are a lawful image of the layout, which has as many words.
pub fn is_lawful(layout: &Layout, words: &[u64]) -> bool
    requires { Accepted layout.now }
    ensures { IsTrue result ↔ IsLawful layout.now words.now }
{
    if words.len() != layout.words() as usize || !are_untagged(words) {
        return false;
    }
    match layout.kind {
        Kind::List | Kind::Hash => is_lawful_list(layout, words),
        Kind::Tree => is_lawful_tree(layout, words),
    }
}

/// The pairs by rising keys. Of pairs with one key the first is there.
fn by_rising_keys(alloc: Global, pairs: &[(u32, u32)]) -> Result<Vec<(u32, u32)>, NoMemory>
    ensures { IfOk result (λ sorted. sorted.items
        ≡ map_of_pairs.entries (map_of_pairs.from_entries {R = nat_cmp} pairs.now)) }
{
    let mut map = BTreeMap::new(alloc);
    let mut left = pairs.len();
    while left > 0 {
        left -= 1;
        let (key, value) = pairs[left];
        map.insert(key, value)?;
    }
    Ok(map.into_iter().collect(alloc)?)
}

/// The rows that a call may be given and that aren't among these.
fn free_among(alloc: Global, layout: &Layout, reached: &[u32]) -> Result<Vec<u32>, NoMemory>
    requires { Accepted layout.now }
    ensures { IfOk result (λ free. free.items
        ≡ filter (is_absent reached.now) (range_with_len (first_row_of layout.now.kind)
        layout.now.rows)) }
{
    let mut free = Vec::new(alloc);
    for row in layout.first_row()..layout.last_row() + 1 {
        if !reached.contains(&row) {
            free.push(row)?;
        }
    }
    Ok(free)
}

fn reached_in(alloc: Global, layout: &Layout, words: &[u64]) -> Result<Reached, NoMemory>
    requires { IsSizedImage layout.now words.now }
    ensures rows { IfOk result (λ reached. (s : Shape) → IsLawfulAs layout.now words.now s →
        reached.rows.items ≡ reached_rows layout.now s) }
    ensures pairs { IfOk result (λ reached. (s : Shape) → IsLawfulAs layout.now words.now s →
        map_of_pairs.from_entries reached.pairs.items ≡ map_in layout.now words.now s) }
{
    match layout.kind {
        Kind::List | Kind::Hash => reached_by_chains(alloc, layout, words),
        Kind::Tree => reached_by_tree(alloc, layout, words),
    }
}

/// What recovery finds in the words; None where they aren't a lawful image of the layout, as where there are more words
/// or fewer than it has. The one error is that no memory was left.
pub fn recovery(alloc: Global, layout: &Layout, words: &[u64]) -> Result<Option<Found>, NoMemory>
    requires { Accepted layout.now }
    ensures found { IfOk result (λ o. IfSome o (Finds layout.now words.now)) }
    ensures refused { IfOk result (λ o. IfNone o (¬ (IsLawful layout.now words.now))) }
{
    if !is_lawful(layout, words) {
        return Ok(None);
    }
    let reached = reached_in(alloc, layout, words)?;
    let pairs = by_rising_keys(alloc, &reached.pairs)?;
    let free = free_among(alloc, layout, &reached.rows)?;
    Ok(Some(Found { pairs, free }))
}
