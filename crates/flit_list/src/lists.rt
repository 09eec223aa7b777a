ghost use Rattle.std.specs.Prelude.{◌≡◌, ◌<◌, ◌^◌};
ghost use Rattle.flit_words.specs.Layouts.{row_word_of, value_word_of, head_of_key};
ghost use Rattle.flit_list_steps.specs.Steps.{key_word, link_word};
ghost use Rattle.flit_list_laws.specs.ListCrew.{IsOfLists};

use flit_rows::Pool;
use flit_words::{Kind, Layout};

/// A durable map in the words of a list, or of a hash table, which has a list for each bucket.
#[derive(Drop)]
pub struct List<P: Drop> {
    pub layout: Layout,
    pub place: P,
    pub pool: Pool,
    pub ghost chains: { IsOfLists layout },
}

impl<P: Drop> List<P> {
    /// The map over a layout of lists, with the placement of its tags and the pool of its free rows.
    pub fn new(layout: Layout, place: P, pool: Pool) -> List<P>
        requires { IsOfLists layout }
        ensures layout { result.layout ≡ layout }
        ensures place { result.place ≡ place }
        ensures pool { result.pool ≡ pool }
    {
        List {
            layout,
            place,
            pool,
        }
    }

    /// The head word of a key's bucket.
    pub(crate) fn head(&self, key: u32) -> u32
        ensures { result ≡ head_of_key self.now.layout key }
    {
        self.layout.head_of(key)
    }

    /// The word at this place among those of the rows. A row is below 2^22, as each link is, and perhaps none of the
    /// layout.
    #[tactic(auto, using(crate::proofs::Parts::two_parts))]
    fn word(&self, row: u32, part: u32) -> u32
        requires row { row < 2 ^ 22 }
        requires part { part < 2 }
        ensures is { result ≡ row_word_of self.now.layout row part }
        ensures below { result < 2 ^ 31 }
    {
        self.layout.buckets + 2 * row.saturating_sub(1) + part
    }

    /// A row's key word.
    pub(crate) fn key_word(&self, row: u32) -> u32
        requires { row < 2 ^ 22 }
        ensures is { result ≡ key_word self.now.layout row }
        ensures below { result < 2 ^ 31 }
    {
        self.word(row, 0)
    }

    /// A row's link word.
    pub(crate) fn link_word(&self, row: u32) -> u32
        requires { row < 2 ^ 22 }
        ensures { result ≡ link_word self.now.layout row }
    {
        self.word(row, 1)
    }

    /// A row's value word.
    pub(crate) fn value_word(&self, row: u32) -> u32
        requires { row < 2 ^ 22 }
        ensures is { result ≡ value_word_of self.now.layout row }
        ensures below { result < 2 ^ 31 }
    {
        let parts = match self.layout.kind {
            Kind::List | Kind::Hash => 2,
            Kind::Tree => 3,
        };
        self.layout.buckets + parts * self.layout.last_row() + row.saturating_sub(1)
    }
}
