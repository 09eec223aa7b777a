ghost use Rattle.std.specs.Prelude.{◌≡◌, ◌+◌, ◌^◌, ◌<◌, ◌≤◌, [], ◌∷◌, codes, length, MatchOption, IfOk, IfErr, IfSome};
ghost use Rattle.flit_words.specs.Layouts.{Accepted, words_of};
ghost use Rattle.flit_words.specs.Texts.{lines_of};
ghost use Rattle.flit_image.specs.ImageTexts.{IsWordFault, IsGoodWord, IsBodyFault};
ghost use Rattle.flit_image.specs.Readings.{BeginsWord};

use crate::faults::ImageError;
use crate::word_lines::word_line_of;
use flit_words::{Layout, first_line};

const END: &[u8] = b"end";

/// A word that a line gives, the line, and the text behind it.
#[derive(Clone, Copy)]
pub struct FoundWord<'a> {
    pub word: u32,
    pub raw: u64,
    pub line: &'a [u8],
    pub rest: &'a [u8],
}

/// What is wrong with a word line where the words below `low` have had their turn.
fn word_fault(layout: &Layout, low: u32, line: u32, word: u64, raw: u64) -> Option<ImageError>
    requires { Accepted layout.now }
    ensures { MatchOption result (IsGoodWord layout.now low word raw)
        (IsWordFault layout.now line low word raw) }
{
    if word < u64::from(low) {
        return Some(ImageError::OutOfOrder { line });
    }
    if u64::from(layout.words()) <= word {
        return Some(ImageError::WordOutOfRange { line });
    }
    if raw == u64::from(layout.initial(word as u32)) {
        return Some(ImageError::Default { line });
    }
    None
}

/// The word of the next line, where the words below `low` have had their turn. None comes at the end.
pub fn next_word<'a>(
    layout: &Layout,
    low: u32,
    line: u32,
    text: &'a [u8],
) -> Result<Option<FoundWord<'a>>, ImageError>
    requires accepted { Accepted layout.now }
    requires more { line + 1 < 2 ^ 32 }
    ensures ok { IfOk result (λ found. MatchOption found (lines_of text.now ≡ codes "end" ∷ [])
        (λ w. BeginsWord layout.now low text.now w.line.now w.word w.raw w.rest.now)) }
    ensures shorter { IfOk result (λ found. IfSome found
        (λ w. length w.rest.now < length text.now)) }
    ensures err { IfErr result (IsBodyFault layout.now line low (lines_of text.now)) }
{
    let missing = ImageError::BadLine { line };
    let Some((here, rest)) = first_line(text) else {
        return Err(missing);
    };
    if here == END {
        if rest.is_empty() {
            return Ok(None);
        }
        return Err(ImageError::BadLine { line: line + 1 });
    }
    let Some((word, raw)) = word_line_of(here) else {
        return Err(ImageError::BadLine { line });
    };
    if let Some(fault) = word_fault(layout, low, line, word, raw) {
        return Err(fault);
    }
    Ok(Some(FoundWord {
        word: word as u32,
        raw,
        line: here,
        rest,
    }))
}
