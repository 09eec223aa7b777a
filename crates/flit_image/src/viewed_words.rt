ghost use Rattle.std.specs.Prelude.{◌≡◌, ◌≤◌, [], ◌∷◌, ◌++◌, codes, length, IfOk, IfErr, OnOk};
ghost use Rattle.flit_words.specs.Layouts.{Accepted};
ghost use Rattle.flit_words.specs.Texts.{lines_of};
ghost use Rattle.flit_image.specs.ImageTexts.{word_lines, IsBodyErrorOf};
ghost use Rattle.flit_image.specs.Readings.{lines_so_far};
ghost use Rattle.flit_image.specs.Views.{HaveLines, IsView};

use crate::faults::ImageError;
use crate::found_words::next_word;
use flit_words::Layout;
use std::alloc::{AllocError, Global};

const FIRST_LINE: u32 = 4;

const NOTHING: &[u8] = b"";

/// Gives each word from the end of these on to `until` its fresh value, and nothing in its line's place.
fn fill_fresh<'a>(
    layout: &Layout,
    words: &mut Vec<u64>,
    lines: &mut Vec<&'a [u8]>,
    until: u32,
) -> Result<(), AllocError>
    requires within { length words.old.items ≤ until }
    requires lines { HaveLines layout.now words.old.items lines.old.items }
    ensures filled { OnOk result (length words.new.items ≡ until) }
    ensures lines { OnOk result (HaveLines layout.now words.new.items lines.new.items) }
    ensures same { OnOk result (lines_so_far layout.now words.new.items ≡ lines_so_far layout.now
        words.old.items) }
{
    for word in words.len() as u32..until {
        words.push(u64::from(layout.initial(word)))?;
        lines.push(NOTHING)?;
    }
    Ok(())
}

/// The words of the lines behind the header, and at its place the line of each word that has one.
pub fn view_words<'a>(
    alloc: Global,
    layout: &Layout,
    body: &'a [u8],
) -> Result<(Vec<u64>, Vec<&'a [u8]>), ImageError>
    requires { Accepted layout.now }
    ensures view { IfOk result (λ p. IsView layout.now p.0.items p.1.items) }
    ensures lines { IfOk result (λ p. lines_of body.now ≡ word_lines layout.now p.0.items ++ codes
        "end" ∷ []) }
    ensures err { IfErr result (IsBodyErrorOf layout.now (lines_of body.now)) }
{
    let count = layout.words();
    let mut words = Vec::with_capacity(alloc, count as usize)?;
    let mut lines = Vec::with_capacity(alloc, count as usize)?;
    let mut line = FIRST_LINE;
    let mut rest = body;
    'lines: while let Some(found) = next_word(layout, words.len() as u32, line, rest)? {
        fill_fresh(layout, &mut words, &mut lines, found.word)?;
        words.push(found.raw)?;
        lines.push(found.line)?;
        line += 1;
        rest = found.rest;
    }
    fill_fresh(layout, &mut words, &mut lines, count)?;
    Ok((words, lines))
}
