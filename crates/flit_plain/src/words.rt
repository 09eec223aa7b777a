ghost use Rattle.std.specs.Prelude.{◌≡◌, ◌<◌, ◌↔◌, length, IsTrue};
ghost use Rattle.flit_words.specs.Links.{HasRightRemover};
ghost use Rattle.flit_model.specs.Lists.{value_in, link_in, key_in, pair_in};
ghost use Rattle.flit_plain.specs.Walks.{IsSizedImage, IsRowOf};

use flit_words::{Kind, Layout, Link, MOST_WORKERS};

pub(crate) fn value_at(words: &[u64], word: u32) -> u32
    requires { word < length words.now }
    ensures { result ≡ value_in words.now word }
{
    (words[word as usize] % (1 << 32)) as u32
}

pub(crate) fn link_at(words: &[u64], word: u32) -> Link
    requires { word < length words.now }
    ensures { result ≡ link_in words.now word }
{
    Link::of(value_at(words, word))
}

pub(crate) fn key_of(layout: &Layout, words: &[u64], row: u32) -> u32
    requires image { IsSizedImage layout.now words.now }
    requires row { IsRowOf layout.now row }
    ensures { result ≡ key_in layout.now words.now row }
{
    value_at(words, layout.row_word(row, 0))
}

/// A row's key with its value, which is 0 in a layout without values.
pub(crate) fn pair_of(layout: &Layout, words: &[u64], row: u32) -> (u32, u32)
    requires image { IsSizedImage layout.now words.now }
    requires row { IsRowOf layout.now row }
    ensures { result ≡ pair_in layout.now words.now row }
{
    let value = if layout.values {
        value_at(words, layout.value_word(row))
    } else {
        0
    };
    (key_of(layout, words, row), value)
}

pub(crate) fn has_right_remover(layout: &Layout, link: Link) -> bool
    ensures { IsTrue result ↔ HasRightRemover layout.now link }
{
    let chained = layout.kind != Kind::Tree;
    link.by == 0 || link.by <= MOST_WORKERS && layout.values && chained && link.mark
}
