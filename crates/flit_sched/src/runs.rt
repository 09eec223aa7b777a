use crate::ending::end_turn;
use crate::histories::history_ahead;
use crate::images::crash_words;
use crate::opening::{are_raw, count_items, first_values, hire, keys_of};
use crate::players::Player;
use crate::positions::place;
use crate::seats::Seat;
use crate::settling::{settle, wait};
use crate::starting::start_turn;
use crate::turning::tally_of;
use flit_model::{
    Ahead, Entry, Event, Image, Item, Machine, Outcome, Placed, Recovered, Tally, Work,
};
use flit_structure::Structure;
use flit_words::NoMemory;
use std::alloc::Global;
use std::marker::Model;

/// What a turn did.
#[derive(Clone, Copy, Debug, PartialEq, Eq)]
pub enum Turn {
    /// The worker made an event, and this was its answer.
    Event { event: Event, answer: u64 },
    /// The worker has no item left, or has made as many events as its stop says.
    Idle,
}

/// A run of a structure, whose workers make their events when their turns come.
#[derive(Drop)]
pub struct Sched<S: Structure> {
    structure: S,
    /// The keys and values of the map at the start.
    first_keys: Vec<u32>,
    first_values: Vec<u32>,
    machine: Machine,
    settled: Vec<Entry>,
    placed: Vec<Placed>,
    players: Vec<Player<Seat<S::Op>>>,
    /// By word, the worker whose update waited there last; 0 where none has.
    waiters: Vec<u8>,
    /// The keys of all calls, and what the map has at each after the settled updates.
    keys: Vec<u32>,
    values: Vec<Option<u32>>,
}

impl<S: Structure> Model for Sched<S> {
    ghost use Rattle.std.specs.Prelude.{vec_capacity};
    ghost use Rattle.flit_sched.specs.Runs.{Seen};

    ghost Value = { Seen S S.Op };

    ghost use Rattle.std.specs.Coded.{codes};
    ghost use Rattle.std.specs.FinMap as map_of_pairs;

    ghost coded = { Prim.hlevel (codes, map_of_pairs.code, S.code, S.Op.code) };

    ghost use Rattle.flit_sched.specs.Openings.{content_of};
    ghost use Rattle.flit_sched.specs.Seats.{IsHeld, run_by};

    ghost view = { λ r. record { structure = r.structure; run = run_by (S.meaning r.structure) (content_of r.first_keys.items r.first_values.items) r.machine r.settled.items r.placed.items r.players.items } };

    ghost invariant = { λ r. IsHeld (S.meaning r.structure) (content_of r.first_keys.items r.first_values.items) r.machine r.settled.items r.placed.items r.players.items r.keys.items r.values.items r.waiters.items (vec_capacity r.settled) (vec_capacity r.placed) };
}

impl<S: Structure> Sched<S> {
    ghost use Rattle.std.specs.Prelude.{◌≡◌, ℕ, true, Some, ◌+◌, ◌<◌, ◌≤◌, ◌∷◌, List, None, IfOk, IsTrue, IsFalse, ◌↔◌, length, slice_get, slice_index_or};
    ghost use Rattle.std.specs.List.{AllByRecursion};
    ghost use Rattle.flit_model.specs.CrashImages.{crash_image};
    ghost use Rattle.flit_model.specs.Histories.{IsRightAt, is_update};
    ghost use Rattle.flit_model.specs.Lists.{IsRisingFrom};
    ghost use Rattle.flit_model.specs.Maps.{IsLegal, map_after_all};
    ghost use Rattle.flit_model.specs.Recovery.{IsImageOf};
    ghost use Rattle.flit_structure.specs.Moments.{numbers_of};
    ghost use Rattle.flit_structure.specs.Lawful.{IsRecoverable, HasMap};
    ghost use Rattle.flit_sched.specs.Openings.{opening_at, AreRight, IsBookOf, IsEvictAt, opened_run};
    ghost use Rattle.flit_sched.specs.Turns.{IsTurn, IsOut, AreRepliesRight, GoesDown, Alone, left_at, tally_in};
    ghost use Rattle.flit_sched.specs.Views.{HasWorker, OfWorker, picks_of, updates_with, history_with, IsAtMoment, AreAheadOf};

    /// A run that starts at what recovery found, with a work for each worker of the layout. Room for all entries and
    /// reads is taken here. The error is NoMemory alone.
    pub fn open(
        alloc: Global,
        structure: S,
        start: &Recovered,
        work: Vec<Work>,
    ) -> Result<Sched<S>, NoMemory>
        requires opens { (S.meaning structure).opens (opening_at start.now) }
        requires found { IsBookOf start.now }
        requires right { AreRight (S.meaning structure).layout work.items }
        ensures structure { IfOk result (λ r. r.structure ≡ structure) }
        ensures run { IfOk result (λ r. r.run ≡ opened_run (S.meaning structure) start.now
            work.items) }
    {
        let words = start.image.words.as_slice();
        are_raw(words);
        let layout = *structure.layout();
        let machine = Machine::of(alloc, &layout, words)?;
        let items = count_items(&work);
        let keys = keys_of(alloc, &work)?;
        let values = first_values(alloc, &start.keys, &start.values, &keys)?;
        Ok(Sched {
            first_keys: Vec::from_slice(alloc, &start.keys)?,
            first_values: Vec::from_slice(alloc, &start.values)?,
            machine,
            settled: Vec::with_capacity(alloc, items + work.len())?,
            placed: Vec::with_capacity(alloc, items)?,
            players: hire(alloc, work)?,
            waiters: vec![in alloc; 0; layout.words() as usize]?,
            keys,
            values,
            structure,
        })
    }

    /// Gives a worker, from 1 on, its turn: it makes its next event, which may be the first of its next item.
    ///
    /// Where the event gives a call its reply, what the reply says is so after it. By each event the worker comes nearer
    /// to the end of its item, or this is over.
    pub fn turn(&mut self, worker: u32) -> Turn
        requires { HasWorker self.old.run worker }
        ensures is { IsTurn (S.meaning self.old.structure) self.old.run worker result self.new.run }
        ensures structure { self.new.structure ≡ self.old.structure }
        ensures replies { AreRepliesRight (S.meaning self.old.structure) self.old.run worker result
            self.new.run }
        ensures goes_down { GoesDown (S.meaning self.old.structure) self.old.run worker result
            self.new.run }
    {
        let at = worker as usize - 1;
        if self.players[at].is_out() {
            return Turn::Idle;
        }
        let settled = self.settled.len() as u64;
        let player = &mut self.players[at];
        let event = start_turn(&self.structure, player, &self.keys, &self.values);
        let answer = self.machine.apply(event);
        wait(&self.structure, player, &mut self.waiters, event, answer);
        settle(
            &mut self.players,
            &self.waiters,
            &mut self.settled,
            &self.keys,
            &mut self.values,
            event,
            answer,
        );
        let player = &mut self.players[at];
        let read = end_turn(&self.structure, player, settled, answer);
        if let Some((call, first, reply)) = read {
            let noted = player.noted;
            let entry = Entry {
                worker,
                number: player.worker.number,
                call,
                reply,
            };
            place(&self.settled, &mut self.placed, first, noted, entry);
        }
        Turn::Event { event, answer }
    }

    /// How many items of a worker aren't over.
    pub fn items_left(&self, worker: u32) -> usize
        requires { HasWorker self.now.run worker }
        ensures { result ≡ left_at self.now.run worker }
    {
        let player = &self.players[worker as usize - 1];
        player.work.items.len() - player.over
    }

    /// The items of a worker, those that are over too.
    pub fn items(&self, worker: u32) -> &[Item]
        requires { HasWorker self.now.run worker }
        ensures { OfWorker self.now.run worker (λ p. result.now ≡ p.items) }
    {
        self.players[worker as usize - 1].work.items.as_slice()
    }

    /// Gives a worker turns until its item is over, or it is out. It answers whether an item is over.
    fn run_item(&mut self, worker: u32) -> bool
        requires { HasWorker self.old.run worker }
        ensures alone { Alone (S.meaning self.old.structure) worker self.old.run self.new.run }
        ensures structure { self.new.structure ≡ self.old.structure }
        ensures long { length self.new.run.parts ≡ length self.old.run.parts }
        ensures fewer { IsTrue result → left_at self.new.run worker < left_at self.old.run worker }
        ensures out { IsFalse result → OfWorker self.new.run worker IsOut }
    {
        let left = self.items_left(worker);
        loop {
            if let Turn::Idle = self.turn(worker) {
                return false;
            }
            if self.items_left(worker) < left {
                return true;
            }
        }
    }

    /// Gives a worker turns, and nobody else, until it has no item left or has made as many events as its stop says.
    /// It comes to that: a worker that runs alone ends.
    pub fn run_alone(&mut self, worker: u32)
        requires { HasWorker self.old.run worker }
        ensures alone { Alone (S.meaning self.old.structure) worker self.old.run self.new.run }
        ensures structure { self.new.structure ≡ self.old.structure }
        ensures out { OfWorker self.new.run worker IsOut }
    {
        while self.run_item(worker) {}
    }

    /// The settled updates, in order.
    ///
    /// They are legal from the map at the start. The shadows are a lawful image, whose map is the map after them. Each
    /// call has at most one, and those of one worker stand in the order of its calls.
    pub fn updates(&self) -> &[Entry]
        ensures is { result.now ≡ self.now.run.progress.settled }
        ensures legal { IsLegal self.now.run.content self.now.run.progress.settled }
        ensures shadows { HasMap (S.meaning self.now.structure).layout self.now.run.state.shadows
            (map_after_all self.now.run.content self.now.run.progress.settled) }
        ensures updates { AllByRecursion (λ e. is_update e ≡ true) self.now.run.progress.settled }
        ensures rises { (name : ℕ) → IsRisingFrom 0
            (numbers_of name self.now.run.progress.settled) }
    {
        self.settled.as_slice()
    }

    /// The completed reads with their positions, in the order in which they were completed.
    /// Each is a read, and its reply is right at its position.
    pub fn placed(&self) -> &[Placed]
        ensures is { result.now ≡ self.now.run.placed }
        ensures right { AllByRecursion (IsRightAt self.now.run.content
            self.now.run.progress.settled) self.now.run.placed }
    {
        self.placed.as_slice()
    }

    /// What became of a worker's item, counted from 0. None comes exactly where the item is an Evict.
    pub fn outcome(&self, worker: u32, item: u32) -> Option<Outcome>
        requires worker { HasWorker self.now.run worker }
        requires item { OfWorker self.now.run worker (λ p. item < length p.items) }
        ensures is { OfWorker self.now.run worker
            (λ p. result ≡ slice_index_or p.outcomes item None) }
        ensures none { OfWorker self.now.run worker
            (λ p. (result ≡ None) ↔ IsEvictAt p.items item) }
    {
        self.players[worker as usize - 1].outcomes[item as usize]
    }

    /// A worker's tally.
    pub fn tally(&self, worker: u32) -> Tally
        requires { HasWorker self.now.run worker }
        ensures { OfWorker self.now.run worker (λ p. result ≡ tally_in
            (S.meaning self.now.structure) p.worker.doing) }
    {
        tally_of(&self.structure, &self.players[worker as usize - 1].worker)
    }

    /// The image that a crash leaves at this moment: the shadows, with the value ahead of each word that is named and
    /// has one. The error is NoMemory alone.
    pub fn image(&self, alloc: Global, ahead: &Ahead) -> Result<Image, NoMemory>
        ensures shape { IfOk result (λ i. IsImageOf (S.meaning self.now.structure).layout i) }
        ensures words { IfOk result (λ i. i.words.items ≡ crash_image (picks_of ahead.now)
            self.now.run.state) }
        ensures recovers { IfOk result (λ i. IsRecoverable (S.meaning self.now.structure).layout
            self.now.run.content i.words.items (updates_with self.now.run (picks_of ahead.now))) }
        ensures moment { IsAtMoment (S.meaning self.now.structure) self.now.run }
        ensures ahead { AreAheadOf (S.meaning self.now.structure) self.now.run }
    {
        let layout = *self.structure.layout();
        Ok(Image {
            kind: layout.kind,
            buckets: layout.buckets,
            rows: layout.rows,
            values: layout.values,
            words: crash_words(alloc, &self.machine, layout.words(), ahead)?,
        })
    }

    /// The image that a crash leaves at this moment, as `image` says it, of a run that is let go. Of the run only the
    /// machine is held while the words of the image are made. The error is NoMemory alone.
    pub fn into_image(self, alloc: Global, ahead: &Ahead) -> Result<Image, NoMemory>
        ensures shape { IfOk result (λ i. IsImageOf (S.meaning self.structure).layout i) }
        ensures words { IfOk result (λ i. i.words.items ≡ crash_image (picks_of ahead.now)
            self.run.state) }
        ensures recovers { IfOk result (λ i. IsRecoverable (S.meaning self.structure).layout
            self.run.content i.words.items (updates_with self.run (picks_of ahead.now))) }
        ensures moment { IsAtMoment (S.meaning self.structure) self.run }
        ensures ahead { AreAheadOf (S.meaning self.structure) self.run }
    {
        let Sched {
            structure,
            first_keys,
            first_values,
            machine,
            settled,
            placed,
            players,
            waiters,
            keys,
            values,
        } = self;
        let layout = *structure.layout();
        drop((structure, first_keys, first_values, settled, placed));
        drop((players, waiters, keys, values));
        Ok(Image {
            kind: layout.kind,
            buckets: layout.buckets,
            rows: layout.rows,
            values: layout.values,
            words: crash_words(alloc, &machine, layout.words(), ahead)?,
        })
    }

    /// The history of this moment, for a crash whose image takes these values ahead: the settled updates, with each read
    /// behind as many of them as its position says, and reads of one position by worker and number; then the updates
    /// that wait in the values ahead that are taken, by word. The error is NoMemory alone.
    ///
    /// It is legal from the map at the start, and leaves the map that recovery finds in this image.
    pub fn history(&self, alloc: Global, ahead: &Ahead) -> Result<Vec<Entry>, NoMemory>
        ensures is { IfOk result (λ h. h.items ≡ history_with self.now.run (picks_of ahead.now)) }
        ensures legal { IfOk result (λ h. IsLegal self.now.run.content h.items) }
        ensures recovers { IfOk result (λ h. HasMap (S.meaning self.now.structure).layout
            (crash_image (picks_of ahead.now) self.now.run.state)
            (map_after_all self.now.run.content h.items)) }
    {
        history_ahead(alloc, &self.settled, &self.placed, &self.players, ahead)
    }
}
