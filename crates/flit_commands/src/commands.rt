ghost use Rattle.std.specs.Prelude.{◌≡◌, ◌≢◌, ◌↔◌, ℕ, ◌≤◌, Some, slice_get, IfSome, IfNone, IsTrue};
ghost use Rattle.std.specs.Fmt.{decimal};
ghost use Rattle.flit_commands.specs.declared.commands.Command.{Command};
ghost use Rattle.flit_commands.specs.CommandWords.{said_by, make_words, IsInRange, IsCommand, NamesNoMaking, NamesNoCommand};

use crate::word_list::Words;
use flit_words::{MOST_WORKERS, number_of};

#[cfg(test)]
mod tests;

/// What `run` writes in place of its report.
#[derive(Clone, Copy, Debug, PartialEq, Eq)]
pub enum RunOption {
    /// `--summary`: six counts.
    Summary,
    /// `--image`: the text of the image after the stop.
    Image,
}

/// What `step` writes beside its report or in its place.
#[derive(Clone, Copy, Debug, PartialEq, Eq)]
pub enum StepOption {
    /// `--events`: a line per event before the report.
    Events,
    /// `--summary`: six counts alone.
    Summary,
    /// `--image`: the text of the image after the run alone.
    Image,
    /// `--detect`: a line per worker behind the report, which says whether its last call took effect.
    Detect,
}

/// The numbers of the command `make`.
#[derive(Clone, Copy, Debug, PartialEq, Eq)]
pub struct Making {
    /// Where the generator begins, up to 2147483647.
    pub seed: u32,
    /// How many calls are made, from 1 to 500000.
    pub calls: u32,
    /// How many keys each worker has, from 1 to 32768.
    pub keys: u32,
    /// How many workers there are, from 1 to 64.
    pub workers: u32,
}

/// A command of the command line.
#[derive(Clone, Copy, Debug, PartialEq, Eq)]
pub enum Command {
    /// `run`, with an option or none: runs a trace on threads.
    Run(Option<RunOption>),
    /// `step`, with an option or none: runs a trace turn by turn.
    Step(Option<StepOption>),
    /// `recover`: recovers an image.
    Recover,
    /// `make SEED CALLS KEYS WORKERS`: makes a trace.
    Make(Making),
    /// `queue`: runs a queue's trace turn by turn.
    Queue,
    /// `check`: checks what `step --events` wrote for a trace.
    Check,
}

/// The number that the word at a place writes, from `least` to `most`. None comes where there is no such word.
fn number_at(words: &Words, place: usize, least: u32, most: u32) -> Option<u32>
    ensures some { IfSome result (λ n.
        (least ≤ n) × (n ≤ most) × (slice_get words.now place ≡ Some (decimal n))) }
    ensures none { IfNone result ((n : ℕ) → least ≤ n → n ≤ most
        → slice_get words.now place ≢ Some (decimal n)) }
{
    let word = words.get(place)?;
    let number = number_of(word.as_bytes())?;
    if u64::from(least) <= number && number <= u64::from(most) {
        Some(number as u32)
    } else {
        None
    }
}

/// The numbers of `make`, where these are its words, `make SEED CALLS KEYS WORKERS`, with numbers in their ranges. None
/// comes where they are other words. It takes no memory.
pub fn making_of(words: &Words) -> Option<Making>
    ensures some { IfSome result (λ making. IsInRange making × (words.now ≡ make_words making)) }
    ensures none { IfNone result (NamesNoMaking words.now) }
{
    let name = words.get(0)?;
    if words.len() != 5 || name != "make" {
        return None;
    }
    Some(Making {
        seed: number_at(words, 1, 0, 2147483647)?,
        calls: number_at(words, 2, 1, 500000)?,
        keys: number_at(words, 3, 1, 32768)?,
        workers: number_at(words, 4, 1, MOST_WORKERS)?,
    })
}

/// The command that the words name. None comes where no command has these words. It takes no memory.
pub fn command_of(words: &Words) -> Option<Command>
    ensures some { IfSome result (λ command. IsCommand command × (words.now ≡ said_by command)) }
    ensures none { IfNone result (NamesNoCommand words.now) }
{
    if words.is(&["run"]) {
        Some(Command::Run(None))
    } else if words.is(&["run", "--summary"]) {
        Some(Command::Run(Some(RunOption::Summary)))
    } else if words.is(&["run", "--image"]) {
        Some(Command::Run(Some(RunOption::Image)))
    } else if words.is(&["step"]) {
        Some(Command::Step(None))
    } else if words.is(&["step", "--events"]) {
        Some(Command::Step(Some(StepOption::Events)))
    } else if words.is(&["step", "--summary"]) {
        Some(Command::Step(Some(StepOption::Summary)))
    } else if words.is(&["step", "--image"]) {
        Some(Command::Step(Some(StepOption::Image)))
    } else if words.is(&["step", "--detect"]) {
        Some(Command::Step(Some(StepOption::Detect)))
    } else if words.is(&["recover"]) {
        Some(Command::Recover)
    } else if words.is(&["queue"]) {
        Some(Command::Queue)
    } else if words.is(&["check"]) {
        Some(Command::Check)
    } else {
        Some(Command::Make(making_of(words)?))
    }
}

/// No list of words names two commands.
pub fn one_command()
    ensures { (a b : Command) → IsCommand a → IsCommand b → said_by a ≡ said_by b → a ≡ b }
{}
