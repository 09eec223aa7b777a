ghost use Rattle.std.specs.Prelude.{◌≡◌, ◌≢◌, ℕ, ◌^◌, ◌<◌, List, ◌∷◌, ◌++◌, codes, slice_index, IfSome, IfNone};
ghost use Rattle.std.specs.Fmt.{decimal};
ghost use Rattle.flit_trace.specs.Sentences.{two_numbers, Says};
ghost use Rattle.flit_words.specs.declared.layouts.Kind.{Kind};
ghost use Rattle.flit_trace.specs.declared.sentences.Sentence.{Sentence};
ghost use Rattle.flit_trace.specs.declared.sentences.Sentence.TheVariants.{Structure};

use flit_image::{behind, cut_at, word_line_of};
use flit_words::{Kind, number_of};

#[cfg(test)]
mod tests;

/// What one line of a trace says. Numbers are as written, below 10^10; a raw word is below 2^64.
#[derive(Clone, Copy, Debug, PartialEq, Eq)]
pub(crate) enum Sentence {
    /// `flit N`
    Version {
        number: u64,
    },
    /// `structure list` (buckets 1), `structure hash B` or `structure tree` (buckets 0)
    Structure {
        kind: Kind,
        buckets: u64,
    },
    /// `place adjacent`
    Adjacent,
    /// `place hashed N`
    Hashed {
        slots: u64,
    },
    /// `place packed`
    Packed,
    /// `place lines`
    Lines,
    /// `rows R`
    Rows {
        rows: u64,
    },
    /// `workers W`
    Workers {
        workers: u64,
    },
    /// `versions V`
    Versions {
        limit: u64,
    },
    /// `start N`
    Start {
        version: u64,
    },
    /// `word W V:X` or `word W V:Xt`
    Word {
        word: u64,
        raw: u64,
    },
    /// `begin`
    Begin,
    /// `w insert k` or `w insert k v`
    Insert {
        worker: u64,
        key: u64,
        value: Option<u64>,
    },
    /// `w remove k`
    Remove {
        worker: u64,
        key: u64,
    },
    /// `w contains k`
    Contains {
        worker: u64,
        key: u64,
    },
    /// `w get k`
    Get {
        worker: u64,
        key: u64,
    },
    /// `w evict n`
    Evict {
        worker: u64,
        word: u64,
    },
    /// `stop w n`
    Stop {
        worker: u64,
        events: u64,
    },
    /// `turn w n`
    Turn {
        worker: u64,
        events: u64,
    },
    /// `ahead n`
    Ahead {
        word: u64,
    },
    /// `ahead all`
    AheadAll,
    /// `end`
    End,
}

const BEGIN: &[u8] = b"begin";

const END: &[u8] = b"end";

const ADJACENT: &[u8] = b"place adjacent";

const PACKED: &[u8] = b"place packed";

const LINES: &[u8] = b"place lines";

const LIST: &[u8] = b"structure list";

const TREE: &[u8] = b"structure tree";

const AHEAD_ALL: &[u8] = b"ahead all";

/// The number that a line has behind these words.
fn number_behind(line: &[u8], words: &[u8]) -> Option<u64>
    ensures some { IfSome result (λ n. line.now ≡ words.now ++ decimal n) }
    ensures small { IfSome result (λ n. n < 10 ^ 10) }
    ensures none { IfNone result ((n : ℕ) → n < 10 ^ 10 → line.now ≢ words.now ++ decimal n) }
{
    number_of(behind(line, words)?)
}

/// Two numbers with a space between them.
fn two_numbers_of(text: &[u8]) -> Option<(u64, u64)>
    ensures some { IfSome result (λ p. text.now ≡ two_numbers p.0 p.1) }
    ensures small { IfSome result (λ p. (p.0 < 10 ^ 10) × (p.1 < 10 ^ 10)) }
    ensures none { IfNone result ((m n : ℕ) → m < 10 ^ 10 → n < 10 ^ 10 →
        text.now ≢ two_numbers m n) }
{
    let (first, second) = cut_at(text, b' ')?;
    Some((number_of(first)?, number_of(second)?))
}

/// The two numbers that a line has behind these words.
fn two_numbers_behind(line: &[u8], words: &[u8]) -> Option<(u64, u64)>
    ensures some { IfSome result (λ p. line.now ≡ words.now ++ two_numbers p.0 p.1) }
    ensures small { IfSome result (λ p. (p.0 < 10 ^ 10) × (p.1 < 10 ^ 10)) }
    ensures none { IfNone result ((m n : ℕ) → m < 10 ^ 10 → n < 10 ^ 10 →
        line.now ≢ words.now ++ two_numbers m n) }
{
    two_numbers_of(behind(line, words)?)
}

/// What a structure line says.
fn structure_of(line: &[u8]) -> Option<Sentence>
    ensures some { IfSome result (λ s. Says line.now s) }
    ensures none { IfNone result ((kind : Kind) (buckets : ℕ) →
        ¬ Says line.now (Structure kind buckets)) }
{
    if line == LIST {
        return Some(Sentence::Structure {
            kind: Kind::List,
            buckets: 1,
        });
    }
    if line == TREE {
        return Some(Sentence::Structure {
            kind: Kind::Tree,
            buckets: 0,
        });
    }
    let buckets = number_behind(line, b"structure hash ")?;
    Some(Sentence::Structure {
        kind: Kind::Hash,
        buckets,
    })
}

/// What a line says that begins with `a`.
fn begun_by_a(line: &[u8]) -> Option<Sentence>
    requires { slice_index line.now 0 ≡ 97 }
    ensures some { IfSome result (λ s. Says line.now s) }
    ensures none { IfNone result ((s : Sentence) → ¬ Says line.now s) }
{
    if line == AHEAD_ALL {
        return Some(Sentence::AheadAll);
    }
    let word = number_behind(line, b"ahead ")?;
    Some(Sentence::Ahead { word })
}

/// What a line says that begins with `p`.
fn begun_by_p(line: &[u8]) -> Option<Sentence>
    requires { slice_index line.now 0 ≡ 112 }
    ensures some { IfSome result (λ s. Says line.now s) }
    ensures none { IfNone result ((s : Sentence) → ¬ Says line.now s) }
{
    if line == ADJACENT {
        return Some(Sentence::Adjacent);
    }
    if line == PACKED {
        return Some(Sentence::Packed);
    }
    if line == LINES {
        return Some(Sentence::Lines);
    }
    let slots = number_behind(line, b"place hashed ")?;
    Some(Sentence::Hashed { slots })
}

/// What a line says that begins with `s`.
fn begun_by_s(line: &[u8]) -> Option<Sentence>
    requires { slice_index line.now 0 ≡ 115 }
    ensures some { IfSome result (λ s. Says line.now s) }
    ensures none { IfNone result ((s : Sentence) → ¬ Says line.now s) }
{
    if let Some((worker, events)) = two_numbers_behind(line, b"stop ") {
        return Some(Sentence::Stop { worker, events });
    }
    if let Some(version) = number_behind(line, b"start ") {
        return Some(Sentence::Start { version });
    }
    structure_of(line)
}

/// What a line says that begins with `w`.
fn begun_by_w(line: &[u8]) -> Option<Sentence>
    requires { slice_index line.now 0 ≡ 119 }
    ensures some { IfSome result (λ s. Says line.now s) }
    ensures none { IfNone result ((s : Sentence) → ¬ Says line.now s) }
{
    if let Some((word, raw)) = word_line_of(line) {
        return Some(Sentence::Word { word, raw });
    }
    let workers = number_behind(line, b"workers ")?;
    Some(Sentence::Workers { workers })
}

/// What a line of a worker says with this call behind its number, which begins with `insert `.
fn insert_of(worker: u64, call: &[u8]) -> Option<Sentence>
    requires { worker < 10 ^ 10 }
    ensures some { IfSome result (λ s. (line : List ℕ) →
        line ≡ decimal worker ++ 32 ∷ call.now → Says line s) }
    ensures one { IfNone result ((n : ℕ) → n < 10 ^ 10 →
        call.now ≢ codes "insert " ++ decimal n) }
    ensures two { IfNone result ((m n : ℕ) → m < 10 ^ 10 → n < 10 ^ 10 →
        call.now ≢ codes "insert " ++ two_numbers m n) }
{
    if let Some(key) = number_behind(call, b"insert ") {
        return Some(Sentence::Insert {
            worker,
            key,
            value: None,
        });
    }
    let (key, value) = two_numbers_behind(call, b"insert ")?;
    Some(Sentence::Insert {
        worker,
        key,
        value: Some(value),
    })
}

/// What a line says that has no letter in front.
fn begun_by_number(line: &[u8]) -> Option<Sentence>
    requires { slice_index line.now 0 < 97 }
    ensures some { IfSome result (λ s. Says line.now s) }
    ensures none { IfNone result ((s : Sentence) → ¬ Says line.now s) }
{
    let (digits, call) = cut_at(line, b' ')?;
    let worker = number_of(digits)?;
    match *call.first()? {
        b'i' => insert_of(worker, call),
        b'r' => {
            let key = number_behind(call, b"remove ")?;
            Some(Sentence::Remove { worker, key })
        }
        b'c' => {
            let key = number_behind(call, b"contains ")?;
            Some(Sentence::Contains { worker, key })
        }
        b'g' => {
            let key = number_behind(call, b"get ")?;
            Some(Sentence::Get { worker, key })
        }
        b'e' => {
            let word = number_behind(call, b"evict ")?;
            Some(Sentence::Evict { worker, word })
        }
        _ => None,
    }
}

/// What a line says. None comes where it says nothing.
pub(crate) fn sentence_of(line: &[u8]) -> Option<Sentence>
    ensures some { IfSome result (λ s. Says line.now s) }
    ensures none { IfNone result ((s : Sentence) → ¬ Says line.now s) }
{
    let first = *line.first()?;
    if first < b'a' {
        return begun_by_number(line);
    }
    match first {
        b'a' => begun_by_a(line),
        b'b' => (line == BEGIN).then_some(Sentence::Begin),
        b'e' => (line == END).then_some(Sentence::End),
        b'f' => {
            let number = number_behind(line, b"flit ")?;
            Some(Sentence::Version { number })
        }
        b'p' => begun_by_p(line),
        b'r' => {
            let rows = number_behind(line, b"rows ")?;
            Some(Sentence::Rows { rows })
        }
        b's' => begun_by_s(line),
        b't' => {
            let (worker, events) = two_numbers_behind(line, b"turn ")?;
            Some(Sentence::Turn { worker, events })
        }
        b'v' => {
            let limit = number_behind(line, b"versions ")?;
            Some(Sentence::Versions { limit })
        }
        b'w' => begun_by_w(line),
        _ => None,
    }
}

/// A line says at most one sentence.
pub fn one_sentence()
    ensures { (line : List ℕ) (s t : Sentence) → Says line s → Says line t → s ≡ t }
{}
