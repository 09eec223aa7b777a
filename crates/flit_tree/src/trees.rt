ghost use Rattle.std.specs.Prelude.{◌≡◌, ◌<◌, ◌^◌};
ghost use Rattle.flit_words.specs.Layouts.{row_word_of, value_word_of};
ghost use Rattle.flit_tree_heap.specs.Views.{IsTreeLayout};
ghost use Rattle.flit_tree_steps.specs.Steps.{key_word, side_word};

use flit_rows::Pool;
use flit_words::Layout;

/// A durable map in the words of a binary search tree, whose keys stand in its leaves.
#[derive(Drop)]
pub struct Tree<P: Drop> {
    pub layout: Layout,
    pub place: P,
    pub pool: Pool,
    pub ghost edges: { IsTreeLayout layout },
}

impl<P: Drop> Tree<P> {
    /// The map over a layout of a tree, with the placement of its tags and the pool of its free rows.
    pub fn new(layout: Layout, place: P, pool: Pool) -> Tree<P>
        requires { IsTreeLayout layout }
        ensures layout { result.layout ≡ layout }
        ensures place { result.place ≡ place }
        ensures pool { result.pool ≡ pool }
    {
        Tree {
            layout,
            place,
            pool,
        }
    }

    /// The word at this place among those of the rows. A row is below 2^22, as each link is, and perhaps none of the
    /// layout.
    fn word(&self, row: u32, part: u32) -> u32
        requires row { row < 2 ^ 22 }
        requires part { part < 3 }
        ensures is { result ≡ row_word_of self.now.layout row part }
        ensures below { result < 2 ^ 31 }
    {
        3 * row.saturating_sub(1) + part
    }

    /// A row's key word.
    pub(crate) fn key_word(&self, row: u32) -> u32
        requires { row < 2 ^ 22 }
        ensures is { result ≡ key_word self.now.layout row }
        ensures below { result < 2 ^ 31 }
    {
        self.word(row, 0)
    }

    /// A row's edge on the side of a key, by the row's own key.
    pub(crate) fn side_word(&self, key: u32, row_key: u32, row: u32) -> u32
        requires { row < 2 ^ 22 }
        ensures { result ≡ side_word self.now.layout key row_key row }
    {
        if key < row_key {
            self.word(row, 1)
        } else {
            self.word(row, 2)
        }
    }

    /// A row's value word.
    pub(crate) fn value_word(&self, row: u32) -> u32
        requires { row < 2 ^ 22 }
        ensures is { result ≡ value_word_of self.now.layout row }
        ensures below { result < 2 ^ 31 }
    {
        3 * self.layout.last_row() + row.saturating_sub(1)
    }
}
