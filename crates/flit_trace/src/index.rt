ghost use Rattle.std.specs.Prelude.{◌≡◌, [], length, map, IfOk, OnOk};
ghost use Rattle.std.specs.List.{AllByRecursion};
ghost use Rattle.flit_trace.specs.Contents.{filled, value_or_0};

use crate::entries::{Action, Entry};
use crate::sentences::Sentence;
use flit_words::{Layout, MOST_WORKERS};
use std::alloc::{AllocError, Global};

const SCRIPTS: usize = MOST_WORKERS as usize;

/// What the lines so far tell beside the draft.
#[derive(Debug, Drop)]
pub(crate) struct Index {
    /// Each worker's call and evict lines, worker 1 first.
    pub scripts: Vec<Vec<Entry>>,
    /// Workers and numbers of events.
    pub turns: Vec<(u32, u64)>,
    pub all_ahead: bool,
    pub ahead: Vec<u32>,
    /// The words of the start block so far.
    pub words: Vec<u64>,
}

/// An empty script for each worker.
pub(crate) fn empty_scripts(alloc: Global) -> Result<Vec<Vec<Entry>>, AllocError>
    ensures whole { IfOk result (λ scripts. length scripts.items ≡ MOST_WORKERS) }
    ensures empty { IfOk result (λ scripts. AllByRecursion (λ script. script ≡ [])
        (map (λ script. script.items) scripts.items)) }
{
    let mut scripts = Vec::with_capacity(alloc, SCRIPTS)?;
    for _worker in 0..SCRIPTS {
        scripts.push(Vec::new(alloc))?;
    }
    Ok(scripts)
}

/// Gives each word from the end of these on to `until` its fresh value.
fn fill(layout: &Layout, words: &mut Vec<u64>, until: u32) -> Result<(), AllocError>
    ensures { OnOk result (words.new.items ≡ filled layout.now.kind until words.old.items) }
{
    for word in words.len()..until as usize {
        words.push(u64::from(layout.initial(word as u32)))?;
    }
    Ok(())
}

/// Gives back the room that growing left in each script.
fn trim_scripts(scripts: &mut Vec<Vec<Entry>>)
    ensures { map (λ script. script.items) scripts.new.items
        ≡ map (λ script. script.items) scripts.old.items }
{
    for place in 0..scripts.len() {
        let script = &mut scripts[place];
        script.shrink_to_fit();
    }
}

/// The value of an insert, which one of version 1 leaves out.
fn value_or_0(value: Option<u64>) -> u64
    ensures { result ≡ value_or_0 value }
{
    match value {
        Some(value) => value,
        None => 0,
    }
}

impl Index {
    ghost use Rattle.std.specs.Prelude.{◌≡◌, ◌≤◌, ◌^◌, ◌<◌, length, OnOk, IfOk};
    ghost use Rattle.flit_words.specs.Layouts.{Accepted, words_of};
    ghost use Rattle.flit_trace.specs.Contents.{Contents, nothing, with_item, told_with};
    ghost use Rattle.flit_trace.specs.Entries.{item_of};
    ghost use Rattle.flit_trace.specs.Index.{IsIndexOf, HasNumbers};

    /// The index of no lines.
    pub fn new(alloc: Global) -> Result<Index, AllocError>
        ensures whole { IfOk result (λ x. length x.scripts.items ≡ MOST_WORKERS) }
        ensures empty { IfOk result (λ x. IsIndexOf x nothing) }
    {
        Ok(Index {
            scripts: empty_scripts(alloc)?,
            turns: Vec::new(alloc),
            all_ahead: false,
            ahead: Vec::new(alloc),
            words: Vec::new(alloc),
        })
    }

    /// Puts a line behind those of its worker.
    fn push(&mut self, worker: u64, entry: Entry) -> Result<(), AllocError>
        requires least { 1 ≤ worker }
        requires most { worker ≤ MOST_WORKERS }
        requires whole { length self.old.scripts.items ≡ MOST_WORKERS }
        ensures whole { OnOk result (length self.new.scripts.items ≡ MOST_WORKERS) }
        ensures pushes { OnOk result ((t : Contents) → IsIndexOf self.old t →
            IsIndexOf self.new (with_item t entry.line worker (item_of entry))) }
    {
        let script = &mut self.scripts[worker as usize - 1];
        script.push(entry)?;
        Ok(())
    }

    /// Gives back the room that growing left.
    pub fn trim(&mut self)
        ensures whole { length self.new.scripts.items ≡ length self.old.scripts.items }
        ensures same { (t : Contents) → IsIndexOf self.old t → IsIndexOf self.new t }
    {
        trim_scripts(&mut self.scripts);
        self.turns.shrink_to_fit();
        self.ahead.shrink_to_fit();
        self.words.shrink_to_fit();
    }

    /// Keeps what a line says.
    pub fn tell(&mut self, layout: &Layout, line: u32, sentence: Sentence) -> Result<(), AllocError>
        requires accepted { Accepted layout.now }
        requires numbers { HasNumbers sentence }
        requires whole { length self.old.scripts.items ≡ MOST_WORKERS }
        ensures whole { OnOk result (length self.new.scripts.items ≡ MOST_WORKERS) }
        ensures tells { OnOk result ((t : Contents) → IsIndexOf self.old t →
            IsIndexOf self.new (told_with layout.now line sentence t)) }
    {
        match sentence {
            Sentence::Insert { worker, key, value } => {
                let value = value_or_0(value);
                self.push(worker, Entry::of(line, Action::Insert, key, value))
            }
            Sentence::Remove { worker, key } => {
                self.push(worker, Entry::of(line, Action::Remove, key, 0))
            }
            Sentence::Contains { worker, key } => {
                self.push(worker, Entry::of(line, Action::Contains, key, 0))
            }
            Sentence::Get { worker, key } => {
                self.push(worker, Entry::of(line, Action::Get, key, 0))
            }
            Sentence::Evict { worker, word } => {
                self.push(worker, Entry::of(line, Action::Evict, word, 0))
            }
            Sentence::Turn { worker, events } => {
                self.turns.push((worker as u32, events))?;
                Ok(())
            }
            Sentence::Ahead { word } => {
                self.ahead.push(word as u32)?;
                Ok(())
            }
            Sentence::AheadAll => {
                self.all_ahead = true;
                Ok(())
            }
            Sentence::Word { word, raw } => {
                fill(layout, &mut self.words, word as u32)?;
                self.words.push(raw)?;
                Ok(())
            }
            Sentence::Begin => fill(layout, &mut self.words, layout.words()),
            _ => Ok(()),
        }
    }
}
