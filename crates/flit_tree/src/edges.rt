ghost use Rattle.std.specs.Prelude.{◌≡◌, ◌<◌, ◌^◌};
ghost use Rattle.flit_words.specs.Links.{link_of, link_value};
ghost use Rattle.flit_words.specs.Words.{value_of};
ghost use Rattle.flit_tree_steps.specs.Steps.{is_plain, to_row, to_row_flagged, frozen_link, thawed_link, other_word};

use flit_words::{Link, Word};

/// What a raw word of an edge says.
pub(crate) fn link_of(raw: u64) -> Link
    ensures is { result ≡ link_of (value_of raw) }
    ensures row { result.row < 2 ^ 22 }
{
    Link::of(Word::unpack(raw).value)
}

/// Whether it has neither a flag nor is frozen.
pub(crate) fn is_plain(raw: u64) -> bool
    ensures { result ≡ is_plain raw }
{
    let link = link_of(raw);
    !link.mark && !link.frozen
}

/// The value of an edge to a row.
fn edge_to(row: u32, mark: bool, frozen: bool) -> u32
    requires { row < 2 ^ 22 }
    ensures { result ≡ link_value (record { row = row; mark = mark; frozen = frozen; by = 0 }) }
{
    let link = Link {
        row,
        mark,
        frozen,
        by: 0,
    };
    link.value()
}

/// The plain edge to a row.
pub(crate) fn to_row(row: u32) -> u32
    requires { row < 2 ^ 22 }
    ensures { result ≡ to_row row }
{
    edge_to(row, false, false)
}

/// The edge to a leaf that is being removed.
pub(crate) fn to_row_flagged(row: u32) -> u32
    requires { row < 2 ^ 22 }
    ensures { result ≡ to_row_flagged row }
{
    edge_to(row, true, false)
}

/// The same edge frozen.
pub(crate) fn frozen_link(raw: u64) -> u32
    ensures { result ≡ frozen_link raw }
{
    let edge = link_of(raw);
    edge_to(edge.row, edge.mark, true)
}

/// The same edge, not frozen.
pub(crate) fn thawed_link(raw: u64) -> u32
    ensures { result ≡ thawed_link raw }
{
    let edge = link_of(raw);
    edge_to(edge.row, edge.mark, false)
}

/// The other edge of the row that an edge belongs to.
pub(crate) fn other_word(edge: u32) -> u32
    ensures { result ≡ other_word edge }
{
    if edge % 3 == 1 {
        edge + 1
    } else {
        edge.saturating_sub(1)
    }
}
