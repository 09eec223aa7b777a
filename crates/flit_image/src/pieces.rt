ghost use Rattle.std.specs.Prelude.{◌≡◌, ◌≢◌, ℕ, ◌+◌, ◌<◌, ◌≤◌, List, ◌∷◌, ◌++◌, length, take, slice_index, codes, Contains, MatchOption, IfSome, IfNone};
ghost use Rattle.std.specs.Fmt.{decimal};

use flit_words::number_of;

/// What a line has behind these words. None comes where it does not begin with them.
pub fn behind<'a>(line: &'a [u8], words: &[u8]) -> Option<&'a [u8]>
    ensures { MatchOption result ((rest : List ℕ) →
        line.now ≢ words.now ++ rest) (λ rest. line.now ≡ words.now ++ rest.now) }
{
    line.strip_prefix(words)
}

/// The number that the digits write, if it is at most `most`.
pub fn number_up_to(digits: &[u8], most: u32) -> Option<u32>
    ensures some { IfSome result (λ n. (digits.now ≡ decimal n) × (n ≤ most)) }
    ensures none { IfNone result ((n : ℕ) → n ≤ most → digits.now ≢ decimal n) }
{
    let number = number_of(digits)?;
    if number <= u64::from(most) {
        Some(number as u32)
    } else {
        None
    }
}

/// Where the byte stands first.
fn first_place(text: &[u8], byte: u8) -> Option<usize>
    ensures none { IfNone result (¬ Contains text.now byte) }
    ensures within { IfSome result (λ place. place < length text.now) }
    ensures is { IfSome result (λ place. slice_index text.now place ≡ byte) }
    ensures first { IfSome result (λ place. ¬ Contains (take place text.now) byte) }
{
    text.iter().position(|here| *here == byte)
}

/// The parts of a text before the first of these bytes and behind it. None comes where the text has no such byte.
pub fn cut_at(text: &[u8], byte: u8) -> Option<(&[u8], &[u8])>
    ensures some { IfSome result (λ p. text.now ≡ p.0.now ++ byte ∷ p.1.now) }
    ensures first { IfSome result (λ p. ¬ Contains p.0.now byte) }
    ensures none { IfNone result ((front back : List ℕ) → text.now ≢ front ++ byte ∷ back) }
{
    let place = first_place(text, byte)?;
    Some((&text[..place], &text[place + 1..]))
}

/// The number that a line has behind these words, if it is at most `most`.
pub fn number_behind(line: &[u8], words: &[u8], most: u32) -> Option<u32>
    ensures some { IfSome result (λ n. (line.now ≡ words.now ++ decimal n) × (n ≤ most)) }
    ensures none { IfNone result ((n : ℕ) → n ≤ most → line.now ≢ words.now ++ decimal n) }
{
    let digits = behind(line, words)?;
    number_up_to(digits, most)
}
