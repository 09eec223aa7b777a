ghost use Rattle.std.specs.Prelude.{◌∷◌, OnOk};
ghost use Rattle.flit_report.specs.Lines.{Appends, spaced_words, event_words, call_words, reply_words, outcome_words, tally_words};
ghost use Rattle.flit_words.specs.Texts.{word_text};

use flit_model::{Call, Event, Outcome, Reply, Tally};
use flit_words::Word;
use std::alloc::AllocError;

// Each function here appends words, each of them behind a space.

fn write_word(out: &mut String, raw: u64) -> Result<(), AllocError>
    ensures { OnOk result (Appends out.old out.new (32 ∷ word_text raw)) }
{
    let word = Word::unpack(raw);
    let tag = if word.tagged { "t" } else { "" };
    write!(out, " {}:{}{tag}", word.version, word.value)
}

pub(crate) fn write_event_words(
    out: &mut String,
    event: Event,
    answer: u64,
) -> Result<(), AllocError>
    ensures { OnOk result (Appends out.old out.new (spaced_words (event_words event answer))) }
{
    match event {
        Event::Load { word } => {
            write!(out, " load {word}")?;
            write_word(out, answer)
        }
        Event::ReadTag { slot } => write!(out, " readtag {slot} {answer}"),
        Event::Raise { slot } => write!(out, " raise {slot} {answer}"),
        Event::Lower { slot } => write!(out, " lower {slot} {answer}"),
        Event::Exchange { word, old, new } => {
            write!(out, " exchange {word}")?;
            write_word(out, old)?;
            write_word(out, new)?;
            write_word(out, answer)
        }
        Event::Persist { word, kept } => {
            write!(out, " persist {word}")?;
            write_word(out, kept)?;
            write_word(out, answer)
        }
        Event::Store { word, new } => {
            write!(out, " store {word}")?;
            write_word(out, new)
        }
        Event::Draw => write!(out, " draw {answer}"),
    }
}

pub(crate) fn write_call_words(out: &mut String, version: u32, call: Call) -> Result<(), AllocError>
    ensures { OnOk result (Appends out.old out.new (spaced_words (call_words version call))) }
{
    match call {
        Call::Insert(key, value) if version == 2 => write!(out, " insert {key} {value}"),
        Call::Insert(key, _) => write!(out, " insert {key}"),
        Call::Remove(key) => write!(out, " remove {key}"),
        Call::Contains(key) => write!(out, " contains {key}"),
        Call::Get(key) => write!(out, " get {key}"),
    }
}

pub(crate) fn write_reply_words(out: &mut String, reply: Reply) -> Result<(), AllocError>
    ensures { OnOk result (Appends out.old out.new (spaced_words (reply_words reply))) }
{
    match reply {
        Reply::Yes => out.push_str(" yes"),
        Reply::No => out.push_str(" no"),
        Reply::Found { value } => write!(out, " value {value}"),
        Reply::Full { ticket } => write!(out, " full {ticket}"),
        Reply::Worn { word, version } => write!(out, " worn {word} {version}"),
    }
}

pub(crate) fn write_outcome_words(out: &mut String, outcome: Outcome) -> Result<(), AllocError>
    ensures { OnOk result (Appends out.old out.new (spaced_words (outcome_words outcome))) }
{
    match outcome {
        Outcome::Replied(reply) => write_reply_words(out, reply),
        Outcome::Stopped => out.push_str(" stopped"),
    }
}

pub(crate) fn write_tally_words(out: &mut String, tally: Tally) -> Result<(), AllocError>
    ensures { OnOk result (Appends out.old out.new (spaced_words (tally_words tally))) }
{
    write!(
        out,
        " loads {} omitted {} queued {}",
        tally.loads, tally.omitted, tally.queued
    )?;
    write!(
        out,
        " persists {} failed {} helped {} tries {}",
        tally.persists, tally.failed, tally.helped, tally.tries
    )
}
