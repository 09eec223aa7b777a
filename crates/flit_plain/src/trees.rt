ghost use Rattle.std.specs.Prelude.{◌≡◌, ℕ, ◌<◌, ◌≤◌, ◌↔◌, false, [], ◌∷◌, length, slice_index, IsTrue, IfOk, OnOk, IfNone, IfSome, EachIndex};
ghost use Rattle.flit_words.specs.declared.layouts.Kind.TheVariants.{Tree as Tree_kind};
ghost use Rattle.flit_words.specs.Words.{is_tagged};
ghost use Rattle.flit_words.specs.Layouts.{initial_of};
ghost use Rattle.flit_model.specs.Lists.{value_in, key_in};
ghost use Rattle.flit_model.specs.Trees.{Tree, Leaf as Tree_leaf, IsTree, IsEdgeTo, IsLeafAt, IsInnerAt, IsFixed, IsLawfulTree, left_word, right_word, rows_in_tree, tree_pairs};
ghost use Rattle.flit_plain.specs.Walks.{IsSizedImage, IsRowOf};
ghost use Rattle.flit_plain.specs.Branches.{HasNoLinks, HasNoTree, HasTree, IsBelow};
ghost use Rattle.flit_plain.specs.Reaching.{Adds};

use crate::reached::Reached;
use crate::words::{has_right_remover, key_of, link_at, pair_of, value_at};
use flit_words::{GREATEST_KEY, Layout, NoMemory};
use std::alloc::Global;

const ABOVE_KEYS: u32 = GREATEST_KEY + 1;

const LAST_ROW: u32 = 3;

/// What is below an edge.
#[derive(Clone, Copy)]
pub(crate) enum Below {
    /// No lawful tree.
    Broken,
    Leaf(u32),
    Inner(u32),
}

/// An edge of a tree, and the keys that may be below it: from `low` on and below `high`.
#[derive(Clone, Copy)]
pub(crate) struct Edge {
    pub(crate) word: u32,
    pub(crate) low: u32,
    pub(crate) high: u32,
}

/// The edge below which the whole tree stands.
const TOP: Edge = Edge {
    word: 4,
    low: 0,
    high: ABOVE_KEYS + 1,
};

fn leads_to(layout: &Layout, words: &[u64], edge: u32, row: u32) -> bool
    requires image { IsSizedImage layout.now words.now }
    requires within { edge < length words.now }
    ensures { IsTrue result ↔ IsEdgeTo layout.now words.now edge row }
{
    let link = link_at(words, edge);
    link.row == row && 1 <= row && row <= layout.last_row() && has_right_remover(layout, link)
}

fn is_bare(layout: &Layout, words: &[u64], row: u32) -> bool
    requires image { IsSizedImage layout.now words.now }
    requires grown { layout.now.kind ≡ Tree_kind }
    requires row { IsRowOf layout.now row }
    ensures { IsTrue result ↔ HasNoLinks layout.now words.now row }
{
    let left = value_at(words, layout.row_word(row, 1));
    let right = value_at(words, layout.row_word(row, 2));
    left == 0 && right == 0
}

fn is_leaf(layout: &Layout, words: &[u64], edge: Edge, row: u32) -> bool
    requires image { IsSizedImage layout.now words.now }
    requires grown { layout.now.kind ≡ Tree_kind }
    requires reached { IsEdgeTo layout.now words.now edge.word row }
    requires bare { HasNoLinks layout.now words.now row }
    requires within { edge.word < length words.now }
    ensures { IsTrue result ↔ IsLeafAt layout.now words.now edge.word edge.low edge.high row }
{
    let key = key_of(layout, words, row);
    let keyed = row == LAST_ROW || key < ABOVE_KEYS;
    let stays = !link_at(words, edge.word).mark || row != LAST_ROW;
    edge.low <= key && key < edge.high && keyed && stays
}

fn is_inner(layout: &Layout, words: &[u64], edge: Edge, row: u32) -> bool
    requires image { IsSizedImage layout.now words.now }
    requires grown { layout.now.kind ≡ Tree_kind }
    requires reached { IsEdgeTo layout.now words.now edge.word row }
    requires within { edge.word < length words.now }
    ensures { IsTrue result ↔ IsInnerAt layout.now words.now edge.word edge.low edge.high row }
{
    let key = key_of(layout, words, row);
    let left = link_at(words, layout.row_word(row, 1));
    let right = link_at(words, layout.row_word(row, 2));
    let unflagged = !link_at(words, edge.word).mark;
    let left_stays = !left.frozen || right.mark;
    let right_stays = !right.frozen || left.mark;
    edge.low < key && key < edge.high && unflagged && left_stays && right_stays
}

fn look_below(layout: &Layout, words: &[u64], edge: Edge) -> Below
    requires image { IsSizedImage layout.now words.now }
    requires grown { layout.now.kind ≡ Tree_kind }
    requires within { edge.word < length words.now }
    ensures { IsBelow layout.now words.now edge.word edge.low edge.high result }
{
    let row = link_at(words, edge.word).row;
    if !leads_to(layout, words, edge.word, row) {
        return Below::Broken;
    }
    if is_bare(layout, words, row) {
        if is_leaf(layout, words, edge, row) {
            Below::Leaf(row)
        } else {
            Below::Broken
        }
    } else if is_inner(layout, words, edge, row) {
        Below::Inner(row)
    } else {
        Below::Broken
    }
}

fn left_edge(layout: &Layout, words: &[u64], edge: Edge, row: u32) -> Edge
    requires image { IsSizedImage layout.now words.now }
    requires row { IsRowOf layout.now row }
    ensures { result ≡ record {
      word = left_word layout.now row;
      low = edge.low;
      high = key_in
          layout.now words.now row;
    } }
{
    Edge {
        word: layout.row_word(row, 1),
        low: edge.low,
        high: key_of(layout, words, row),
    }
}

fn right_edge(layout: &Layout, words: &[u64], edge: Edge, row: u32) -> Edge
    requires image { IsSizedImage layout.now words.now }
    requires grown { layout.now.kind ≡ Tree_kind }
    requires row { IsRowOf layout.now row }
    ensures { result ≡ record {
      word = right_word layout.now row;
      low = key_in layout.now words.now
          row;
      high = edge.high;
    } }
{
    Edge {
        word: layout.row_word(row, 2),
        low: key_of(layout, words, row),
        high: edge.high,
    }
}

/// Whether row 3 is in the tree below an edge, or None where no lawful tree is.
fn has_last_row(layout: &Layout, words: &[u64], edge: Edge) -> Option<bool>
    requires image { IsSizedImage layout.now words.now }
    requires grown { layout.now.kind ≡ Tree_kind }
    requires within { edge.word < length words.now }
    ensures none { IfNone result (HasNoTree layout.now words.now edge.word edge.low edge.high) }
    ensures some { IfSome result (HasTree layout.now words.now edge.word edge.low edge.high) }
{
    match look_below(layout, words, edge) {
        Below::Broken => None,
        Below::Leaf(row) => Some(row == LAST_ROW),
        Below::Inner(row) => {
            let in_left = has_last_row(layout, words, left_edge(layout, words, edge, row))?;
            let in_right = has_last_row(layout, words, right_edge(layout, words, edge, row))?;
            Some((row == LAST_ROW) | in_left | in_right)
        }
    }
}

/// Adds a leaf, and its pair where it is in the map.
fn reach_leaf(
    layout: &Layout,
    words: &[u64],
    edge: u32,
    row: u32,
    reached: &mut Reached,
) -> Result<(), NoMemory>
    requires image { IsSizedImage layout.now words.now }
    requires row { IsRowOf layout.now row }
    requires within { edge < length words.now }
    ensures { OnOk result (Adds reached.old reached.new (row ∷ [])
        (tree_pairs layout.now words.now edge (Tree_leaf row))) }
{
    reached.rows.push(row)?;
    let (key, value) = pair_of(layout, words, row);
    if !link_at(words, edge).mark && key < ABOVE_KEYS {
        reached.pairs.push((key, value))?;
    }
    Ok(())
}

/// Adds the tree below an edge, where a lawful image may have one.
fn reach_tree(
    layout: &Layout,
    words: &[u64],
    edge: Edge,
    reached: &mut Reached,
) -> Result<(), NoMemory>
    requires image { IsSizedImage layout.now words.now }
    requires grown { layout.now.kind ≡ Tree_kind }
    requires within { edge.word < length words.now }
    ensures { OnOk result ((t : Tree) → IsTree layout.now words.now edge.word edge.low edge.high t →
        Adds reached.old reached.new (rows_in_tree t)
        (tree_pairs layout.now words.now edge.word t)) }
{
    match look_below(layout, words, edge) {
        Below::Broken => Ok(()),
        Below::Leaf(row) => reach_leaf(layout, words, edge.word, row, reached),
        Below::Inner(row) => {
            reached.rows.push(row)?;
            reach_tree(layout, words, left_edge(layout, words, edge, row), reached)?;
            reach_tree(layout, words, right_edge(layout, words, edge, row), reached)
        }
    }
}

/// What a lawful image's tree leads to.
pub(crate) fn reached_by_tree(
    alloc: Global,
    layout: &Layout,
    words: &[u64],
) -> Result<Reached, NoMemory>
    requires image { IsSizedImage layout.now words.now }
    requires grown { layout.now.kind ≡ Tree_kind }
    ensures rows { IfOk result (λ reached. (t : Tree) → IsLawfulTree layout.now words.now t →
        reached.rows.items ≡ rows_in_tree t) }
    ensures pairs { IfOk result (λ reached. (t : Tree) → IsLawfulTree layout.now words.now t →
        reached.pairs.items ≡ tree_pairs layout.now words.now 4 t) }
{
    let mut reached = Reached::new(alloc);
    reach_tree(layout, words, TOP, &mut reached)?;
    Ok(reached)
}

/// Whether the words from one on and before another have their fresh values.
fn are_fresh(layout: &Layout, words: &[u64], from: u32, until: u32) -> bool
    requires { until ≤ length words.now }
    ensures { IsTrue result ↔ ((w : ℕ) → from ≤ w → w < until →
        value_in words.now w ≡ initial_of layout.now.kind w) }
{
    for word in from..until {
        if value_at(words, word) != layout.initial(word) {
            return false;
        }
    }
    true
}

/// Whether the fixed rows are as they were made.
fn are_fixed_rows_fresh(layout: &Layout, words: &[u64]) -> bool
    requires image { IsSizedImage layout.now words.now }
    requires grown { layout.now.kind ≡ Tree_kind }
    ensures { IsTrue result ↔ ((w : ℕ) → IsFixed layout.now w →
        value_in words.now w ≡ initial_of layout.now.kind w) }
{
    if layout.values {
        let first = layout.value_word(1);
        let last = layout.value_word(5);
        if !are_fresh(layout, words, first, last + 1) {
            return false;
        }
    }
    are_fresh(layout, words, 0, TOP.word) && are_fresh(layout, words, TOP.word + 1, 15)
}

/// Whether a lawful image of a tree may have these words, none of which is tagged.
pub(crate) fn is_lawful_tree(layout: &Layout, words: &[u64]) -> bool
    requires image { IsSizedImage layout.now words.now }
    requires grown { layout.now.kind ≡ Tree_kind }
    requires untagged { EachIndex words.now (λ w. is_tagged (slice_index words.now w) ≡ false) }
    ensures { IsTrue result ↔ ((t : Tree) × IsLawfulTree layout.now words.now t) }
{
    if !are_fixed_rows_fresh(layout, words) {
        return false;
    }
    let top = link_at(words, TOP.word);
    if top.mark || top.frozen {
        return false;
    }
    has_last_row(layout, words, TOP).unwrap_or(false)
}
