ghost use Rattle.std.specs.Prelude.{◌≡◌, ◌≢◌, ℕ, ◌<◌, ◌≤◌, false, List, [], ◌∷◌, ◌++◌, length, slice_index, EachIndex, Some, None, IfOk, OnOk, IfErr};
ghost use Rattle.flit_words.specs.Layouts.{Accepted, words_of, last_row_of};
ghost use Rattle.flit_words.specs.Words.{is_tagged};
ghost use Rattle.flit_model.specs.Lists.{value_in, link_in, key_in, row_value_in, is_removed, list_pairs, IsLawfulList, rows_on_chains};
ghost use Rattle.flit_recover.specs.ListWalks.{names_well, leads_astray, is_misplaced, damage_at, IsSoundFrom, IsDamagedFrom, IsChainDamage};
ghost use Rattle.flit_recover.specs.Marks.{AreMarks};

use crate::found::Damage;
use crate::marks::Reached;
use flit_words::{GREATEST_KEY, Kind, Layout, Link, MOST_WORKERS, Word};
use std::alloc::Global;

pub(crate) fn value_at(words: &[u64], word: u32) -> u32
    requires { word < length words.now }
    ensures { result ≡ value_in words.now word }
{
    Word::unpack(words[word as usize]).value
}

pub(crate) fn link_at(words: &[u64], word: u32) -> Link
    requires { word < length words.now }
    ensures { result ≡ link_in words.now word }
{
    Link::of(value_at(words, word))
}

fn names_remover_well(layout: &Layout, link: Link) -> bool
    ensures { result ≡ names_well layout.now link }
{
    link.by == 0 || link.by <= MOST_WORKERS && layout.values && link.mark
}

fn is_astray(layout: &Layout, words: &[u64], word: u32) -> bool
    requires accepted { Accepted layout.now }
    requires within { word < length words.now }
    ensures { result ≡ leads_astray layout.now words.now word }
{
    let link = link_at(words, word);
    !names_remover_well(layout, link)
        || layout.last_row() < link.row
        || link.frozen
        || word < layout.buckets && link.mark
}

fn is_out_of_place(layout: &Layout, head: u32, key: u32) -> bool
    requires accepted { Accepted layout.now }
    requires chained { layout.now.kind ≢ Kind.Tree }
    ensures { result ≡ is_misplaced layout.now head key }
{
    GREATEST_KEY < key || layout.head_of(key) != head
}

/// The row that a link word of a head's chain leads to, 0 where it ends the chain, where the next
/// key is to be at least `low`.
fn row_behind(
    layout: &Layout,
    words: &[u64],
    head: u32,
    reached: &Reached,
    low: u32,
    word: u32,
) -> Result<u32, Damage>
    requires accepted { Accepted layout.now }
    requires chained { layout.now.kind ≢ Kind.Tree }
    requires whole { length words.now ≡ words_of layout.now }
    requires within { word < words_of layout.now }
    requires marks { AreMarks (last_row_of layout.now) reached.now.marks.items
        reached.now.rows.items }
    ensures sound { OnOk result (damage_at layout.now words.now head reached.now.rows.items low word
        ≡ None) }
    ensures row { IfOk result (λ row. row ≡ (link_in words.now word).row) }
    ensures err { IfErr result (λ d. damage_at layout.now words.now head reached.now.rows.items low
        word ≡ Some d) }
{
    if is_astray(layout, words, word) {
        return Err(Damage::RowOutOfRange { word });
    }
    let row = link_at(words, word).row;
    if row == 0 {
        return Ok(0);
    }
    if reached.marks[row as usize] {
        return Err(Damage::Shared { row });
    }
    let key = value_at(words, layout.row_word(row, 0));
    if is_out_of_place(layout, head, key) {
        return Err(Damage::KeyPlace { row });
    }
    if key < low {
        return Err(Damage::KeyOrder { row });
    }
    Ok(row)
}

/// Whether the row's own link is marked.
fn is_being_removed(layout: &Layout, words: &[u64], row: u32) -> bool
    requires accepted { Accepted layout.now }
    requires whole { length words.now ≡ words_of layout.now }
    requires above { 1 ≤ row }
    requires within { row ≤ last_row_of layout.now }
    ensures { result ≡ is_removed layout.now words.now row }
{
    link_at(words, layout.row_word(row, 1)).mark
}

/// How many keys a row counts for: one, unless it is being removed.
fn count_row(layout: &Layout, words: &[u64], row: u32) -> usize
    requires accepted { Accepted layout.now }
    requires whole { length words.now ≡ words_of layout.now }
    requires above { 1 ≤ row }
    requires within { row ≤ last_row_of layout.now }
    ensures { result ≡ length (list_pairs layout.now words.now (row ∷ [])) }
{
    usize::from(!is_being_removed(layout, words, row))
}

/// Walks the chain of a head, behind the rows that were reached before, and counts on from how many
/// of those aren't being removed.
fn walk_chain(
    layout: &Layout,
    words: &[u64],
    head: u32,
    reached: &mut Reached,
    before: usize,
) -> Result<usize, Damage>
    requires accepted { Accepted layout.now }
    requires chained { layout.now.kind ≢ Kind.Tree }
    requires whole { length words.now ≡ words_of layout.now }
    requires head { head < layout.now.buckets }
    requires marks { AreMarks (last_row_of layout.now) reached.old.marks.items
        reached.old.rows.items }
    requires before { before
        ≡ length (list_pairs layout.now words.now reached.old.rows.items) }
    ensures rows { OnOk result ((rows : List ℕ)
        × (reached.new.rows.items ≡ reached.old.rows.items ++ rows)
        × IsSoundFrom layout.now words.now head reached.old.rows.items 0 head rows) }
    ensures marks { OnOk result (AreMarks (last_row_of layout.now) reached.new.marks.items
        reached.new.rows.items) }
    ensures count { IfOk result (λ n. n
        ≡ length (list_pairs layout.now words.now reached.new.rows.items)) }
    ensures damage { IfErr result (λ d. d ≢ Damage.NoMemory →
        (rows : List ℕ) × IsDamagedFrom layout.now words.now head reached.old.rows.items 0 head rows
        d) }
{
    let mut word = head;
    let mut low = 0;
    let mut count = before;
    'chain: loop {
        let row = row_behind(layout, words, head, reached, low, word)?;
        if row == 0 {
            return Ok(count);
        }
        let key = value_at(words, layout.row_word(row, 0));
        reached.push(layout, row)?;
        count += count_row(layout, words, row);
        low = key + 1;
        word = layout.row_word(row, 1);
    }
}

/// The rows that a walk over chains reached, and how many of them aren't being removed.
#[derive(Debug, Drop)]
pub(crate) struct ListReached {
    pub(crate) reached: Reached,
    pub(crate) count: usize,
}

/// Walks all chains of a list or a hash table without tags, in the order of their heads, and gives
/// the rows on them, counted. An error is the first damage on the chains, or NoMemory.
pub(crate) fn walk_lists(
    alloc: Global,
    layout: &Layout,
    words: &[u64],
) -> Result<ListReached, Damage>
    requires accepted { Accepted layout.now }
    requires chained { layout.now.kind ≢ Kind.Tree }
    requires whole { length words.now ≡ words_of layout.now }
    requires untagged { (w : ℕ) → w < words_of layout.now →
        is_tagged (slice_index words.now w) ≡ false }
    ensures lawful { IfOk result (λ r. (chain : ℕ → List ℕ)
        × IsLawfulList layout.now words.now chain
        × (r.reached.rows.items ≡ rows_on_chains layout.now chain)) }
    ensures marks { IfOk result (λ r. AreMarks (last_row_of layout.now) r.reached.marks.items
        r.reached.rows.items) }
    ensures count { IfOk result (λ r. r.count
        ≡ length (list_pairs layout.now words.now r.reached.rows.items)) }
    ensures damage { IfErr result (λ d. d ≢ Damage.NoMemory →
        IsChainDamage layout.now words.now d) }
{
    let mut reached = Reached::new(alloc, layout)?;
    let mut count = 0;
    for head in 0..layout.buckets {
        count = walk_chain(layout, words, head, &mut reached, count)?;
    }
    Ok(ListReached { reached, count })
}

pub(crate) fn key_at(layout: &Layout, words: &[u64], row: u32) -> u32
    requires accepted { Accepted layout.now }
    requires whole { length words.now ≡ words_of layout.now }
    requires above { 1 ≤ row }
    requires within { row ≤ last_row_of layout.now }
    ensures { result ≡ key_in layout.now words.now row }
{
    value_at(words, layout.row_word(row, 0))
}

pub(crate) fn row_value_at(layout: &Layout, words: &[u64], row: u32) -> u32
    requires accepted { Accepted layout.now }
    requires whole { length words.now ≡ words_of layout.now }
    requires above { 1 ≤ row }
    requires within { row ≤ last_row_of layout.now }
    ensures { result ≡ row_value_in layout.now words.now row }
{
    if layout.values {
        value_at(words, layout.value_word(row))
    } else {
        0
    }
}

/// The keys with their values of the rows that aren't being removed, with room for so many.
pub(crate) fn pairs_of_rows(
    alloc: Global,
    layout: &Layout,
    words: &[u64],
    rows: &[u32],
    room: usize,
) -> Result<Vec<(u32, u32)>, Damage>
    requires accepted { Accepted layout.now }
    requires whole { length words.now ≡ words_of layout.now }
    requires within { EachIndex rows.now (λ k. (1 ≤ slice_index rows.now k)
        × (slice_index rows.now k ≤ last_row_of layout.now)) }
    ensures pairs { IfOk result (λ p. p.items ≡ list_pairs layout.now words.now rows.now) }
    ensures err { IfErr result (λ d. d ≡ Damage.NoMemory) }
{
    let mut pairs = Vec::with_capacity(alloc, room)?;
    for row in rows {
        let row = *row;
        if !is_being_removed(layout, words, row) {
            pairs.push((key_at(layout, words, row), row_value_at(layout, words, row)))?;
        }
    }
    Ok(pairs)
}
