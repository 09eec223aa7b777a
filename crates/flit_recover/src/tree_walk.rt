ghost use Rattle.std.specs.Prelude.{◌≡◌, ◌≢◌, ◌⊎◌, ℕ, ◌^◌, ◌<◌, ◌≤◌, List, ◌++◌, [], ◌∷◌, length, false, slice_index, Some, None, IfOk, OnOk, IfErr, IfNone, IfSome};
ghost use Rattle.flit_words.specs.declared.layouts.Layout.{Layout};
ghost use Rattle.flit_words.specs.Layouts.{Accepted, words_of, last_row_of, initial_of};
ghost use Rattle.flit_words.specs.Words.{is_tagged};
ghost use Rattle.flit_model.specs.Lists.{value_in, link_in, key_in, row_value_in};
ghost use Rattle.flit_model.specs.Trees.{Leaf, IsFixed, left_word, right_word, tree_pairs, is_in_map};
ghost use Rattle.flit_recover.specs.Marks.{AreMarks};
ghost use Rattle.flit_recover.specs.TreeWalks.{IsFixedDamage, IsTreeDamage, leads_to_row, leads_nowhere, has_bit, is_odd_link, is_leaf, is_above_all, is_out_of_range, other_edge, has_wrong_bit, edge_damage, reached_at_start};
ghost use Rattle.flit_recover.specs.TreeFinds.{FindsTree, FindsDamage, IsTreeReached, IsEdgeWord, AreFresh, IsFirstChanged, GoesOn, left_below, right_below};

use crate::found::Damage;
use crate::list_walk::{key_at, link_at, row_value_at, value_at};
use crate::marks::Reached;
use flit_words::{GREATEST_KEY, Kind, Layout};
use std::alloc::Global;

/// An edge that is still to be walked: the keys below it are from `low` on and below `high`.
#[derive(Clone, Copy, Debug)]
pub(crate) struct Pending {
    edge: u32,
    low: u32,
    high: u32,
}

/// The rows that the walk reached, and the keys with their values in rising order.
#[derive(Debug, Drop)]
pub(crate) struct TreeReached {
    pub(crate) reached: Reached,
    pub(crate) pairs: Vec<(u32, u32)>,
}

fn is_nowhere(words: &[u64], word: u32) -> bool
    requires { word < length words.now }
    ensures { result ≡ leads_nowhere words.now word }
{
    let link = link_at(words, word);
    link.by == 0 && link.row == 0
}

fn bears_bit(words: &[u64], word: u32) -> bool
    requires { word < length words.now }
    ensures { result ≡ has_bit words.now word }
{
    let link = link_at(words, word);
    link.mark || link.frozen
}

fn is_odd(words: &[u64], word: u32, other: u32) -> bool
    requires word { word < length words.now }
    requires other { other < length words.now }
    ensures { result ≡ is_odd_link words.now word other }
{
    is_nowhere(words, word) && (!is_nowhere(words, other) || bears_bit(words, word))
}

fn leads_on(layout: &Layout, words: &[u64], edge: u32) -> bool
    requires accepted { Accepted layout.now }
    requires within { edge < length words.now }
    ensures { result ≡ leads_to_row layout.now words.now edge }
{
    let link = link_at(words, edge);
    link.by == 0 && link.row != 0 && link.row <= layout.last_row()
}

fn ends(layout: &Layout, words: &[u64], row: u32) -> bool
    requires accepted { Accepted layout.now }
    requires whole { length words.now ≡ words_of layout.now }
    requires least { 1 ≤ row }
    requires most { row ≤ last_row_of layout.now }
    ensures { result ≡ is_leaf layout.now words.now row }
{
    is_nowhere(words, layout.row_word(row, 1))
}

fn is_above(layout: &Layout, words: &[u64], row: u32) -> bool
    requires accepted { Accepted layout.now }
    requires whole { length words.now ≡ words_of layout.now }
    requires least { 1 ≤ row }
    requires most { row ≤ last_row_of layout.now }
    ensures { result ≡ is_above_all layout.now words.now row }
{
    ends(layout, words, row) && row != 3 && GREATEST_KEY < key_at(layout, words, row)
}

fn is_outside(layout: &Layout, words: &[u64], at: Pending, row: u32) -> bool
    requires accepted { Accepted layout.now }
    requires whole { length words.now ≡ words_of layout.now }
    requires least { 1 ≤ row }
    requires most { row ≤ last_row_of layout.now }
    ensures { result ≡ is_out_of_range layout.now words.now at.low at.high row }
{
    let key = key_at(layout, words, row);
    let below = if ends(layout, words, row) {
        key < at.low
    } else {
        key <= at.low
    };
    at.high <= key || below
}

fn other(edge: u32) -> u32
    requires least { 1 ≤ edge }
    requires most { edge < 2 ^ 31 }
    ensures { result ≡ other_edge edge }
{
    if edge % 3 == 1 { edge + 1 } else { edge - 1 }
}

fn bears_wrong_bit(layout: &Layout, words: &[u64], edge: u32, row: u32) -> bool
    requires accepted { Accepted layout.now }
    requires whole { length words.now ≡ words_of layout.now }
    requires edge { IsEdgeWord layout.now edge }
    requires least { 1 ≤ row }
    requires most { row ≤ last_row_of layout.now }
    ensures { result ≡ has_wrong_bit layout.now words.now edge row }
{
    let link = link_at(words, edge);
    edge == 4 && bears_bit(words, edge)
        || link.mark && (!ends(layout, words, row) || row == 3)
        || link.frozen && !link_at(words, other(edge)).mark
}

/// The row below an edge, or what is wrong there.
fn row_below(layout: &Layout, words: &[u64], reached: &Reached, at: Pending) -> Result<u32, Damage>
    requires accepted { Accepted layout.now }
    requires kind { layout.now.kind ≡ Kind.Tree }
    requires whole { length words.now ≡ words_of layout.now }
    requires edge { IsEdgeWord layout.now at.edge }
    requires marks { AreMarks (last_row_of layout.now) reached.now.marks.items
        reached.now.rows.items }
    ensures sound { OnOk result (edge_damage layout.now words.now at.edge at.low at.high
        reached.now.rows.items ≡ None) }
    ensures row { IfOk result (λ row. row ≡ (link_in words.now at.edge).row) }
    ensures least { IfOk result (λ row. 1 ≤ row) }
    ensures most { IfOk result (λ row. row ≤ last_row_of layout.now) }
    ensures err { IfErr result (λ d. edge_damage layout.now words.now at.edge at.low at.high
        reached.now.rows.items ≡ Some d) }
{
    let edge = at.edge;
    if !leads_on(layout, words, edge) {
        return Err(Damage::RowOutOfRange { word: edge });
    }
    let row = link_at(words, edge).row;
    if reached.marks[row as usize] {
        return Err(Damage::Shared { row });
    }
    let left = layout.row_word(row, 1);
    let right = layout.row_word(row, 2);
    if is_odd(words, left, right) {
        return Err(Damage::RowOutOfRange { word: left });
    }
    if is_odd(words, right, left) {
        return Err(Damage::RowOutOfRange { word: right });
    }
    if is_above(layout, words, row) {
        return Err(Damage::KeyPlace { row });
    }
    if is_outside(layout, words, at, row) {
        return Err(Damage::KeyOrder { row });
    }
    if bears_wrong_bit(layout, words, edge, row) {
        return Err(Damage::BadEdge { word: edge });
    }
    Ok(row)
}

/// Writes down the pair of a leaf that is in the map.
fn take_leaf(
    layout: &Layout,
    words: &[u64],
    edge: u32,
    row: u32,
    pairs: &mut Vec<(u32, u32)>,
) -> Result<(), Damage>
    requires accepted { Accepted layout.now }
    requires whole { length words.now ≡ words_of layout.now }
    requires within { edge < length words.now }
    requires least { 1 ≤ row }
    requires most { row ≤ last_row_of layout.now }
    ensures ok { OnOk result (pairs.new.items ≡ pairs.old.items
        ++ tree_pairs layout.now words.now edge (Leaf row)) }
    ensures err { IfErr result (λ d. d ≡ Damage.NoMemory) }
{
    let key = key_at(layout, words, row);
    if !link_at(words, edge).mark && key <= GREATEST_KEY {
        pairs.push((key, row_value_at(layout, words, row)))?;
    }
    Ok(())
}

/// Leaves the edges of an inner row to be walked, the left one first.
fn push_edges(
    layout: &Layout,
    words: &[u64],
    at: Pending,
    row: u32,
    stack: &mut Vec<Pending>,
) -> Result<(), Damage>
    requires accepted { Accepted layout.now }
    requires kind { layout.now.kind ≡ Kind.Tree }
    requires whole { length words.now ≡ words_of layout.now }
    requires least { 1 ≤ row }
    requires most { row ≤ last_row_of layout.now }
    ensures ok { OnOk result (stack.new.items ≡ stack.old.items
        ++ right_below layout.now words.now at row ∷ left_below layout.now words.now at row ∷ []) }
    ensures err { IfErr result (λ d. d ≡ Damage.NoMemory) }
{
    let key = key_at(layout, words, row);
    stack.push(Pending {
        edge: layout.row_word(row, 2),
        low: key,
        high: at.high,
    })?;
    stack.push(Pending {
        edge: layout.row_word(row, 1),
        low: at.low,
        high: key,
    })?;
    Ok(())
}

/// Goes on below a row: a leaf gives its pair, an inner row its edges.
fn go_on(
    layout: &Layout,
    words: &[u64],
    at: Pending,
    row: u32,
    pairs: &mut Vec<(u32, u32)>,
    stack: &mut Vec<Pending>,
) -> Result<(), Damage>
    requires accepted { Accepted layout.now }
    requires kind { layout.now.kind ≡ Kind.Tree }
    requires whole { length words.now ≡ words_of layout.now }
    requires edge { IsEdgeWord layout.now at.edge }
    requires least { 1 ≤ row }
    requires most { row ≤ last_row_of layout.now }
    ensures ok { OnOk result (GoesOn layout.now words.now at row pairs.old.items pairs.new.items
        stack.old.items stack.new.items) }
    ensures err { IfErr result (λ d. d ≡ Damage.NoMemory) }
{
    if ends(layout, words, row) {
        take_leaf(layout, words, at.edge, row, pairs)
    } else {
        push_edges(layout, words, at, row, stack)
    }
}

/// The rows that are reached before the walk begins.
fn start(alloc: Global, layout: &Layout) -> Result<Reached, Damage>
    requires accepted { Accepted layout.now }
    requires kind { layout.now.kind ≡ Kind.Tree }
    ensures rows { IfOk result (λ r. r.rows.items ≡ reached_at_start) }
    ensures marks { IfOk result (λ r. AreMarks (last_row_of layout.now) r.marks.items
        r.rows.items) }
    ensures err { IfErr result (λ d. d ≡ Damage.NoMemory) }
{
    let mut reached = Reached::new(alloc, layout)?;
    reached.push(layout, 1)?;
    reached.push(layout, 2)?;
    reached.push(layout, 4)?;
    reached.push(layout, 5)?;
    Ok(reached)
}

/// The walk from word 4: what is found where nothing is wrong, or what is wrong first.
fn walk_below(alloc: Global, layout: &Layout, words: &[u64]) -> Result<TreeReached, Damage>
    requires accepted { Accepted layout.now }
    requires kind { layout.now.kind ≡ Kind.Tree }
    requires whole { length words.now ≡ words_of layout.now }
    ensures found { IfOk result (λ r. FindsTree layout.now words.now r.reached.rows.items
        r.pairs.items) }
    ensures marks { IfOk result (λ r. AreMarks (last_row_of layout.now) r.reached.marks.items
        r.reached.rows.items) }
    ensures damage { IfErr result (λ d. d ≢ Damage.NoMemory → FindsDamage layout.now words.now d) }
{
    let mut reached = start(alloc, layout)?;
    let mut pairs = Vec::new(alloc);
    let mut stack = Vec::new(alloc);
    stack.push(Pending {
        edge: 4,
        low: 0,
        high: GREATEST_KEY + 2,
    })?;
    while let Some(at) = stack.pop() {
        let row = row_below(layout, words, &reached, at)?;
        reached.push(layout, row)?;
        go_on(layout, words, at, row, &mut pairs, &mut stack)?;
    }
    Ok(TreeReached { reached, pairs })
}

/// The first word from `from` on and below `to` that isn't fresh, word 4 left out.
fn first_changed(layout: &Layout, words: &[u64], from: u32, to: u32) -> Option<u32>
    requires { to ≤ length words.now }
    ensures none { IfNone result (AreFresh layout.now words.now from to) }
    ensures some { IfSome result (IsFirstChanged layout.now words.now from to) }
{
    for word in from..to {
        if word != 4 && value_at(words, word) != layout.initial(word) {
            return Some(word);
        }
    }
    None
}

/// The first fixed word that isn't fresh.
fn fixed_changed(layout: &Layout, words: &[u64]) -> Option<u32>
    requires accepted { Accepted layout.now }
    requires kind { layout.now.kind ≡ Kind.Tree }
    requires whole { length words.now ≡ words_of layout.now }
    ensures none { IfNone result ((w : ℕ) → IsFixed layout.now w →
        value_in words.now w ≡ initial_of layout.now.kind w) }
    ensures some { IfSome result (λ w. IsFixedDamage layout.now words.now (Damage.BadEdge w)) }
{
    let changed = first_changed(layout, words, 0, 15);
    if changed.is_some() || !layout.values {
        return changed;
    }
    first_changed(
        layout,
        words,
        layout.value_word(1),
        layout.value_word(5) + 1,
    )
}

/// Walks a tree without tags, and gives the rows and the pairs of a lawful one. An error is the first
/// damage of the tree, or NoMemory.
pub(crate) fn walk_tree(
    alloc: Global,
    layout: &Layout,
    words: &[u64],
) -> Result<TreeReached, Damage>
    requires accepted { Accepted layout.now }
    requires kind { layout.now.kind ≡ Kind.Tree }
    requires whole { length words.now ≡ words_of layout.now }
    requires untagged { (w : ℕ) → w < words_of layout.now →
        is_tagged (slice_index words.now w) ≡ false }
    ensures lawful { IfOk result (λ r. IsTreeReached layout.now words.now r.reached.rows.items
        r.pairs.items) }
    ensures marks { IfOk result (λ r. AreMarks (last_row_of layout.now) r.reached.marks.items
        r.reached.rows.items) }
    ensures damage { IfErr result (λ d. d ≢ Damage.NoMemory → IsTreeDamage layout.now words.now d) }
{
    if let Some(word) = fixed_changed(layout, words) {
        return Err(Damage::BadEdge { word });
    }
    let found = walk_below(alloc, layout, words)?;
    if !found.reached.marks[3] {
        return Err(Damage::BadEdge { word: 4 });
    }
    Ok(found)
}

#[cfg(test)]
mod tests;
