ghost use Rattle.std.specs.Prelude.{◌≡◌, ◌≢◌, ℕ, ◌<◌, ◌≤◌, ◌↔◌, List, [], ◌∷◌, length, IsTrue, IfOk, OnOk};
ghost use Rattle.flit_words.specs.declared.layouts.Kind.TheVariants.{Tree as Tree_kind};
ghost use Rattle.flit_model.specs.Lists.{IsLawfulChain, IsLawfulList, list_pairs, rows_on_chains};
ghost use Rattle.flit_plain.specs.Walks.{IsSizedImage, IsRowOf, MayStand};
ghost use Rattle.flit_plain.specs.Steps.{IsNextAt};
ghost use Rattle.flit_plain.specs.Reaching.{Adds};

use crate::reached::Reached;
use crate::words::{has_right_remover, key_of, link_at, pair_of};
use flit_words::{GREATEST_KEY, Layout, NoMemory};
use std::alloc::Global;

/// What a link word of a chain says.
#[derive(Clone, Copy)]
pub(crate) enum Next {
    /// No lawful chain goes on from the word.
    Broken,
    End,
    Row(u32),
}

fn may_stand(layout: &Layout, words: &[u64], head: u32, low: u32, row: u32) -> bool
    requires image { IsSizedImage layout.now words.now }
    requires chained { layout.now.kind ≢ Tree_kind }
    ensures { IsTrue result ↔ MayStand layout.now words.now head low row }
{
    if row < 1 || row > layout.last_row() {
        return false;
    }
    let key = key_of(layout, words, row);
    low <= key && key <= GREATEST_KEY && layout.head_of(key) == head
}

fn next_on_chain(layout: &Layout, words: &[u64], head: u32, low: u32, word: u32) -> Next
    requires image { IsSizedImage layout.now words.now }
    requires chained { layout.now.kind ≢ Tree_kind }
    requires word { word < length words.now }
    ensures { IsNextAt layout.now words.now head low word result }
{
    let link = link_at(words, word);
    if link.frozen || !has_right_remover(layout, link) {
        Next::Broken
    } else if link.row == 0 {
        Next::End
    } else if may_stand(layout, words, head, low, link.row) {
        Next::Row(link.row)
    } else {
        Next::Broken
    }
}

/// Whether a lawful image may have this chain at a head.
pub(crate) fn is_lawful_chain(layout: &Layout, words: &[u64], head: u32) -> bool
    requires image { IsSizedImage layout.now words.now }
    requires chained { layout.now.kind ≢ Tree_kind }
    requires head { head < layout.now.buckets }
    ensures { IsTrue result ↔ ((rows : List ℕ) × IsLawfulChain layout.now words.now head rows) }
{
    let mut word = head;
    let mut low = 0;
    while let Next::Row(row) = next_on_chain(layout, words, head, low, word) {
        low = key_of(layout, words, row) + 1;
        word = layout.row_word(row, 1);
    }
    let ended = matches!(next_on_chain(layout, words, head, low, word), Next::End);
    ended && !link_at(words, head).mark
}

/// Adds a row of a chain, and its pair where it isn't removed.
fn reach_row(
    layout: &Layout,
    words: &[u64],
    row: u32,
    reached: &mut Reached,
) -> Result<(), NoMemory>
    requires image { IsSizedImage layout.now words.now }
    requires row { IsRowOf layout.now row }
    ensures { OnOk result (Adds reached.old reached.new (row ∷ [])
        (list_pairs layout.now words.now (row ∷ []))) }
{
    reached.rows.push(row)?;
    if !link_at(words, layout.row_word(row, 1)).mark {
        reached.pairs.push(pair_of(layout, words, row))?;
    }
    Ok(())
}

/// Adds the chain of a head, where a lawful image may have one.
fn reach_chain(
    layout: &Layout,
    words: &[u64],
    head: u32,
    reached: &mut Reached,
) -> Result<(), NoMemory>
    requires image { IsSizedImage layout.now words.now }
    requires chained { layout.now.kind ≢ Tree_kind }
    requires head { head < layout.now.buckets }
    ensures { OnOk result ((rows : List ℕ) → IsLawfulChain layout.now words.now head rows →
        Adds reached.old reached.new rows (list_pairs layout.now words.now rows)) }
{
    let mut word = head;
    let mut low = 0;
    while let Next::Row(row) = next_on_chain(layout, words, head, low, word) {
        reach_row(layout, words, row, reached)?;
        low = key_of(layout, words, row) + 1;
        word = layout.row_word(row, 1);
    }
    Ok(())
}

/// What the chains of a lawful image lead to.
pub(crate) fn reached_by_chains(
    alloc: Global,
    layout: &Layout,
    words: &[u64],
) -> Result<Reached, NoMemory>
    requires image { IsSizedImage layout.now words.now }
    requires chained { layout.now.kind ≢ Tree_kind }
    ensures rows { IfOk result (λ reached. (chain : ℕ → List ℕ) →
        IsLawfulList layout.now words.now chain →
        reached.rows.items ≡ rows_on_chains layout.now chain) }
    ensures pairs { IfOk result (λ reached. (chain : ℕ → List ℕ) →
        IsLawfulList layout.now words.now chain →
        reached.pairs.items ≡ list_pairs layout.now words.now (rows_on_chains layout.now chain)) }
{
    let mut reached = Reached::new(alloc);
    for head in 0..layout.buckets {
        reach_chain(layout, words, head, &mut reached)?;
    }
    Ok(reached)
}
