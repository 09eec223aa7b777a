ghost use Rattle.std.specs.Prelude.{◌≡◌, ◌≤◌, length, IfOk};
ghost use Rattle.flit_model.specs.Recovery.{IsWhole};
ghost use Rattle.flit_tree_runs.specs.Opened.{counts_of};

use super::agreement::leads_to;
use super::opening::buckets_fit;
use flit_model::{Ahead, Entry, Image, Item, Outcome, Tally};
use flit_recover::{Recovered, recover};
use flit_report::{Line, Report, report_text};
use flit_sched::{Sched, Turn};
use flit_structure::Structure;
use std::alloc::Global;
use std::process::Abort;
use std::test::Fail;

/// A run, and how many items each of its workers has.
#[derive(Drop)]
pub struct Driven<S: Structure> {
    run: Sched<S>,
    counts: Vec<u32>,
    ghost same: { counts_of run.run ≡ counts.items },
}

/// An image whose numbers are within the limits.
fn is_whole(rt: &impl Abort, image: &Image)
    ensures { IsWhole image.now }
{
    buckets_fit(rt, image.kind, image.buckets);
    assert!(rt; 1 <= image.rows);
    assert!(rt; image.rows <= 1048575);
    assert!(rt; image.words.len() == image.layout().words() as usize);
}

/// What recovery finds in an image, which has no damage.
fn recovered(rt: &impl Abort, alloc: Global, image: &Image) -> Result<Recovered, Fail> {
    is_whole(rt, image);
    match recover(alloc, image) {
        Ok(found) => Ok(found),
        Err(_) => Err(Fail::from("damaged")),
    }
}

impl<S: Structure> Driven<S> {
    /// The run, before its first turn.
    pub fn of(run: Sched<S>, counts: Vec<u32>) -> Driven<S>
        requires { counts_of run.run ≡ counts.items }
    {
        Driven { run, counts }
    }

    fn has_worker(&self, rt: &impl Abort, worker: u32)
        ensures least { 1 ≤ worker }
        ensures most { worker ≤ length self.now.counts.items }
    {
        assert!(rt; 1 <= worker);
        assert!(rt; worker as usize <= self.counts.len());
    }

    /// One turn of a worker; answers whether it made an event.
    pub fn turn(&mut self, rt: &impl Abort, worker: u32) -> Result<bool, Fail> {
        self.has_worker(rt, worker);
        match self.run.turn(worker) {
            Turn::Event { .. } => Ok(true),
            Turn::Idle => Ok(false),
        }
    }

    /// So many turns of a worker, or fewer where it is out; answers how many events it made.
    pub fn turns(&mut self, rt: &impl Abort, worker: u32, most: u32) -> Result<u32, Fail> {
        for made in 0..most {
            if !self.turn(rt, worker)? {
                return Ok(made);
            }
        }
        Ok(most)
    }

    pub fn outcome(&self, rt: &impl Abort, worker: u32, item: u32) -> Option<Outcome> {
        self.has_worker(rt, worker);
        assert!(rt; item < self.counts[worker as usize - 1]);
        self.run.outcome(worker, item)
    }

    pub fn tally(&self, rt: &impl Abort, worker: u32) -> Tally {
        self.has_worker(rt, worker);
        self.run.tally(worker)
    }

    pub fn history(&self, alloc: Global, ahead: &Ahead) -> Result<Vec<Entry>, Fail> {
        Ok(self.run.history(alloc, ahead)?)
    }

    /// The words that a crash leaves that takes these values ahead.
    pub fn image(&self, alloc: Global, ahead: &Ahead) -> Result<Image, Fail> {
        Ok(self.run.image(alloc, ahead)?)
    }

    /// A crash at this moment that takes these values ahead leaves the map of its history.
    pub fn agrees_at(&self, rt: &impl Abort, alloc: Global, ahead: &Ahead) -> Result<(), Fail> {
        let found = recovered(rt, alloc, &self.image(alloc, ahead)?)?;
        leads_to(rt, alloc, &self.history(alloc, ahead)?, &found)
    }

    /// A crash at this moment, with no value ahead, with all, and with each one.
    pub fn agrees(&self, rt: &impl Abort, alloc: Global) -> Result<(), Fail> {
        self.agrees_at(rt, alloc, &Ahead::None)?;
        self.agrees_at(rt, alloc, &Ahead::All)?;
        let words = self.image(alloc, &Ahead::None)?.words.len();
        assert!(rt; words <= 4194320);
        for word in 0..words as u32 {
            let one = Vec::from_slice(alloc, &[word])?;
            self.agrees_at(rt, alloc, &Ahead::Words(one))?;
        }
        Ok(())
    }

    /// The calls among these items, which the workers have in this order, with their outcomes.
    fn lines(
        &self,
        rt: &impl Abort,
        alloc: Global,
        items: &[(u32, Item)],
    ) -> Result<Vec<Line>, Fail> {
        let mut lines = Vec::new(alloc);
        for (at, (worker, item)) in items.iter().enumerate() {
            let before = items[..at]
                .iter()
                .filter(|other| other.0 == *worker)
                .count();
            if let Item::Call(call) = item {
                assert!(rt; before < 1000);
                let Some(outcome) = self.outcome(rt, *worker, before as u32) else {
                    return Err(Fail::from("no outcome"));
                };
                lines.push(Line {
                    worker: *worker,
                    call: *call,
                    outcome,
                })?;
            }
        }
        Ok(lines)
    }

    fn tallies(&self, rt: &impl Abort, alloc: Global) -> Result<Vec<Tally>, Fail> {
        let mut tallies = Vec::new(alloc);
        assert!(rt; self.counts.len() <= 64);
        for before in 0..self.counts.len() as u32 {
            tallies.push(self.tally(rt, before + 1))?;
        }
        Ok(tallies)
    }

    /// The report of this moment, without its events, as a text.
    pub fn text(
        &self,
        rt: &impl Abort,
        alloc: Global,
        items: &[(u32, Item)],
    ) -> Result<Vec<u8>, Fail> {
        let image = self.image(alloc, &Ahead::None)?;
        let found = recovered(rt, alloc, &image)?;
        assert!(rt; found.free.len() <= 1048575);
        let report = Report {
            summary: false,
            version: if image.values { 2 } else { 1 },
            events: Vec::new(alloc),
            lines: self.lines(rt, alloc, items)?,
            history: self.history(alloc, &Ahead::None)?,
            tallies: self.tallies(rt, alloc)?,
            keys: found.keys,
            values: found.values,
            free: found.free.len() as u32,
        };
        Ok(report_text(alloc, &report)?)
    }
}
