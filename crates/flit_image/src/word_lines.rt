ghost use Rattle.std.specs.Prelude.{◌≡◌, ◌≢◌, ℕ, ◌^◌, ◌<◌, Bool, [], ◌++◌, codes, IfSome, IfNone, if◌then◌else◌};
ghost use Rattle.std.specs.Fmt.{decimal};
ghost use Rattle.flit_words.specs.Texts.{word_text};
ghost use Rattle.flit_image.specs.ImageTexts.{IsWordLine};

use crate::pieces::{behind, cut_at, number_up_to};
use flit_words::{GREATEST_VALUE, GREATEST_VERSION, Word, number_of};

/// A value, and whether a `t` stands behind it.
fn value_of(text: &[u8]) -> Option<(u32, bool)>
    ensures some { IfSome result (λ p. text.now ≡ decimal p.0 ++ (if p.1 then codes "t" else [])) }
    ensures none { IfNone result ((value : ℕ) (tagged : Bool) → value < 2 ^ 32 →
        text.now ≢ decimal value ++ (if tagged then codes "t" else [])) }
{
    let Some((digits, behind)) = cut_at(text, b't') else {
        return Some((number_up_to(text, GREATEST_VALUE)?, false));
    };
    if !behind.is_empty() {
        return None;
    }
    Some((number_up_to(digits, GREATEST_VALUE)?, true))
}

/// The raw word that a text stands for.
fn raw_of(text: &[u8]) -> Option<u64>
    ensures some { IfSome result (λ raw. text.now ≡ word_text raw) }
    ensures none { IfNone result ((raw : ℕ) → raw < 2 ^ 64 → text.now ≢ word_text raw) }
{
    let (digits, behind) = cut_at(text, b':')?;
    let version = number_up_to(digits, GREATEST_VERSION)?;
    let (value, tagged) = value_of(behind)?;
    let word = Word {
        version,
        value,
        tagged,
    };
    Some(word.pack())
}

/// The word and the raw word of a line `word W V:X`, or `word W V:Xt` where the word is tagged: W has one
/// to ten digits, V is at most `GREATEST_VERSION` and X at most `GREATEST_VALUE`. None comes for every other line.
pub fn word_line_of(line: &[u8]) -> Option<(u64, u64)>
    ensures some { IfSome result (λ p. IsWordLine line.now p.0 p.1) }
    ensures none { IfNone result ((word raw : ℕ) → ¬ IsWordLine line.now word raw) }
{
    let rest = behind(line, b"word ")?;
    let (digits, text) = cut_at(rest, b' ')?;
    Some((number_of(digits)?, raw_of(text)?))
}
