ghost use Rattle.std.specs.Prelude.{◌≡◌, ◌^◌, ◌<◌, ◌≤◌, [], ◌∷◌, ◌++◌, codes, length, IfOk, IfErr, OnOk};
ghost use Rattle.std.specs.List.{AllByRecursion};
ghost use Rattle.flit_words.specs.Layouts.{Accepted, words_of};
ghost use Rattle.flit_words.specs.Texts.{lines_of};
ghost use Rattle.flit_image.specs.ImageTexts.{word_lines, IsBodyErrorOf};
ghost use Rattle.flit_image.specs.Readings.{lines_so_far};

use crate::faults::ImageError;
use crate::found_words::next_word;
use flit_words::Layout;
use std::alloc::{AllocError, Global};

const FIRST_LINE: u32 = 4;

/// Gives each word from the end of these on to `until` its fresh value.
fn fill_fresh(layout: &Layout, words: &mut Vec<u64>, until: u32) -> Result<(), AllocError>
    requires within { length words.old.items ≤ until }
    requires raw { AllByRecursion (λ raw. raw < 2 ^ 64) words.old.items }
    ensures raw { OnOk result (AllByRecursion (λ raw. raw < 2 ^ 64) words.new.items) }
    ensures filled { OnOk result (length words.new.items ≡ until) }
    ensures same { OnOk result (lines_so_far layout.now words.new.items
        ≡ lines_so_far layout.now words.old.items) }
{
    for word in words.len() as u32..until {
        words.push(u64::from(layout.initial(word)))?;
    }
    Ok(())
}

/// The words of the lines behind the header.
pub fn read_words(alloc: Global, layout: &Layout, body: &[u8]) -> Result<Vec<u64>, ImageError>
    requires { Accepted layout.now }
    ensures whole { IfOk result (λ words. length words.items ≡ words_of layout.now) }
    ensures raw { IfOk result (λ words. AllByRecursion (λ raw. raw < 2 ^ 64) words.items) }
    ensures lines { IfOk result (λ words. lines_of body.now ≡ word_lines layout.now words.items
        ++ codes "end" ∷ []) }
    ensures err { IfErr result (IsBodyErrorOf layout.now (lines_of body.now)) }
{
    let count = layout.words();
    let mut words = Vec::with_capacity(alloc, count as usize)?;
    let mut line = FIRST_LINE;
    let mut rest = body;
    'lines: while let Some(found) = next_word(layout, words.len() as u32, line, rest)? {
        fill_fresh(layout, &mut words, found.word)?;
        words.push(found.raw)?;
        line += 1;
        rest = found.rest;
    }
    fill_fresh(layout, &mut words, count)?;
    Ok(words)
}
