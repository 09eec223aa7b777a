ghost use Rattle.std.specs.Prelude.{◌≡◌, ◌≢◌, ℕ, ◌≤◌, Bool, List, [], ◌∷◌, ◌++◌, take, codes, IfSome, IfNone, IfOk, IfErr};
ghost use Rattle.std.specs.Fmt.{decimal};
ghost use Rattle.flit_words.specs.declared.layouts.Kind.{Kind};
ghost use Rattle.flit_words.specs.Texts.{lines_of};
ghost use Rattle.flit_image.specs.ImageTexts.{version_number, IsBadHeader};
ghost use Rattle.flit_image.specs.Readings.{IsStructureLine, BeginsImage};

use crate::pieces::number_behind;
use flit_model::image_layout;
use flit_words::{Kind, Layout, MOST_BUCKETS, MOST_ROWS, first_line};

const LIST: &[u8] = b"structure list";

const TREE: &[u8] = b"structure tree";

/// Whether images with this first line have values.
fn values_of(line: &[u8]) -> Option<bool>
    ensures some { IfSome result (λ values. line.now ≡ codes "image "
        ++ decimal (version_number values)) }
    ensures none { IfNone result ((values : Bool) →
        line.now ≢ codes "image " ++ decimal (version_number values)) }
{
    let version = number_behind(line, b"image ", 2)?;
    if version == 0 {
        return None;
    }
    Some(version == 2)
}

/// The kind and the number of buckets of a structure line.
fn structure_of(line: &[u8]) -> Option<(Kind, u32)>
    ensures some { IfSome result (λ p. IsStructureLine line.now p.0 p.1) }
    ensures none { IfNone result ((kind : Kind) (buckets : ℕ) →
        ¬ IsStructureLine line.now kind buckets) }
{
    if line == LIST {
        return Some((Kind::List, 1));
    }
    if line == TREE {
        return Some((Kind::Tree, 0));
    }
    let buckets = number_behind(line, b"structure hash ", MOST_BUCKETS)?;
    if buckets == 0 {
        return None;
    }
    Some((Kind::Hash, buckets))
}

/// The number of rows of a line, from 1 to `MOST_ROWS`.
fn rows_of(line: &[u8]) -> Option<u32>
    ensures some { IfSome result (λ rows. (line.now ≡ codes "rows " ++ decimal rows) × (1 ≤ rows)
        × (rows ≤ MOST_ROWS)) }
    ensures none { IfNone result ((rows : ℕ) → 1 ≤ rows → rows ≤ MOST_ROWS →
        line.now ≢ codes "rows " ++ decimal rows) }
{
    let rows = number_behind(line, b"rows ", MOST_ROWS)?;
    if rows == 0 {
        return None;
    }
    Some(rows)
}

/// The layout that the first three lines give, and the text behind them.
pub fn header_of(text: &[u8]) -> Option<(Layout, &[u8])>
    ensures some { IfSome result (λ p. BeginsImage text.now p.0 p.1.now) }
    ensures none { IfNone result (IsBadHeader (lines_of text.now)) }
{
    let (version, behind) = first_line(text)?;
    let (structure, behind) = first_line(behind)?;
    let (numbers, body) = first_line(behind)?;
    let values = values_of(version)?;
    let (kind, buckets) = structure_of(structure)?;
    let rows = rows_of(numbers)?;
    Some((image_layout(kind, buckets, rows, values), body))
}
