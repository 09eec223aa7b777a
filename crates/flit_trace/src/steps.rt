ghost use Rattle.std.specs.Prelude.{◌≡◌, ℕ, ◌≤◌, OnOk, IfOk, IfErr, nat_le, nat_lt, ◌&&◌, ◌==◌};
ghost use Rattle.flit_words.specs.Layouts.{least_buckets, most_buckets, words_of};
ghost use Rattle.flit_trace.specs.declared.drafts.Draft.{Draft};
ghost use Rattle.flit_trace.specs.Drafts.{Verdict, Goes, IsBad, IsPast, up_to, verdict, version_verdict, buckets_verdict, structure_verdict, with_structure, place_verdict, hashed_verdict, rows_verdict, workers_verdict, versions_verdict, start_verdict, word_verdict, begin_verdict, line_verdict, stop_verdict, is_worker, is_value, only_if, takes_body, IsSound, IsErrorFor};

use crate::drafts::Draft;
use crate::faults::{Bound, TraceError};
use crate::heads::Place;
use crate::sentences::Sentence;
use crate::stages::Stage;
use flit_words::{
    GREATEST_KEY, GREATEST_VALUE, GREATEST_VERSION, Kind, MOST_BUCKETS, MOST_CALLS,
    MOST_HASHED_SLOTS, MOST_ROWS, MOST_WORKERS,
};

const MOST_KEY: u64 = GREATEST_KEY as u64;

const MOST_VALUE: u64 = GREATEST_VALUE as u64;

/// A number from 1 up to its limit, in a line that may stand where it stands.
fn up_to(
    line: u32,
    may_stand: bool,
    number: u64,
    most: u32,
    limit: Bound,
) -> Result<u32, TraceError>
    ensures ok { IfOk result (λ n. (n ≡ number) × (1 ≤ n) × (n ≤ most)) }
    ensures goes { IfOk result (λ n. (d : Draft) →
        only_if may_stand (up_to number most limit d) ≡ Goes d) }
    ensures err { IfErr result (λ e. (d : Draft) →
        IsErrorFor line (only_if may_stand (up_to number most limit d)) e) }
{
    if !may_stand || number == 0 {
        return Err(TraceError::BadLine { line });
    }
    if number > u64::from(most) {
        return Err(TraceError::Limit { line, limit });
    }
    Ok(number as u32)
}

/// The number of buckets of a structure line.
fn buckets_of(line: u32, may_stand: bool, kind: Kind, buckets: u64) -> Result<u32, TraceError>
    ensures ok { IfOk result (λ n. (least_buckets kind ≤ n) × (n ≤ most_buckets kind)) }
    ensures goes { IfOk result (λ n. (d : Draft) →
        only_if may_stand (buckets_verdict d kind buckets) ≡ Goes (with_structure d kind n)) }
    ensures err { IfErr result (λ e. (d : Draft) →
        IsErrorFor line (only_if may_stand (buckets_verdict d kind buckets)) e) }
{
    let fixed = match kind {
        Kind::List => 1,
        Kind::Hash => return up_to(line, may_stand, buckets, MOST_BUCKETS, Bound::Buckets),
        Kind::Tree => 0,
    };
    if may_stand {
        Ok(fixed)
    } else {
        Err(TraceError::BadLine { line })
    }
}

impl Draft {
    fn take_version(&mut self, line: u32, number: u64) -> Result<(), TraceError>
        ensures ok { OnOk result (version_verdict self.old number ≡ Goes self.new) }
        ensures err { IfErr result (IsErrorFor line (version_verdict self.old number)) }
    {
        if !self.stage.takes_version() || number != 1 && number != 2 {
            return Err(TraceError::BadLine { line });
        }
        self.stage = Stage::AtStructure;
        self.layout.values = number == 2;
        Ok(())
    }

    fn take_structure(&mut self, line: u32, kind: Kind, buckets: u64) -> Result<(), TraceError>
        ensures ok { OnOk result (structure_verdict self.old kind buckets ≡ Goes self.new) }
        ensures err { IfErr result (IsErrorFor line (structure_verdict self.old kind buckets)) }
    {
        let may_stand = self.stage.takes_structure();
        let buckets = buckets_of(line, may_stand, kind, buckets)?;
        self.layout.buckets = buckets;
        self.layout.kind = kind;
        self.stage = Stage::AtPlace;
        Ok(())
    }

    fn take_place(&mut self, line: u32, place: Place) -> Result<(), TraceError>
        ensures ok { OnOk result (place_verdict self.old place ≡ Goes self.new) }
        ensures err { IfErr result (IsErrorFor line (place_verdict self.old place)) }
    {
        if !self.stage.takes_place() {
            return Err(TraceError::BadLine { line });
        }
        self.stage = Stage::AtRows;
        self.place = place;
        Ok(())
    }

    fn take_hashed(&mut self, line: u32, slots: u64) -> Result<(), TraceError>
        ensures ok { OnOk result (hashed_verdict self.old slots ≡ Goes self.new) }
        ensures err { IfErr result (IsErrorFor line (hashed_verdict self.old slots)) }
    {
        let may_stand = self.stage.takes_place();
        let slots = up_to(line, may_stand, slots, MOST_HASHED_SLOTS, Bound::Slots)?;
        self.stage = Stage::AtRows;
        self.place = Place::Hashed(slots);
        Ok(())
    }

    fn take_rows(&mut self, line: u32, rows: u64) -> Result<(), TraceError>
        ensures ok { OnOk result (rows_verdict self.old rows ≡ Goes self.new) }
        ensures err { IfErr result (IsErrorFor line (rows_verdict self.old rows)) }
    {
        let may_stand = self.stage.takes_rows();
        self.layout.rows = up_to(line, may_stand, rows, MOST_ROWS, Bound::Rows)?;
        self.stage = Stage::AtWorkers;
        Ok(())
    }

    fn take_workers(&mut self, line: u32, workers: u64) -> Result<(), TraceError>
        ensures ok { OnOk result (workers_verdict self.old workers ≡ Goes self.new) }
        ensures err { IfErr result (IsErrorFor line (workers_verdict self.old workers)) }
    {
        let may_stand = self.stage.takes_workers();
        self.layout.workers = up_to(line, may_stand, workers, MOST_WORKERS, Bound::Workers)?;
        self.stage = Stage::AtVersions;
        Ok(())
    }

    fn take_versions(&mut self, line: u32, limit: u64) -> Result<(), TraceError>
        ensures ok { OnOk result (versions_verdict self.old limit ≡ Goes self.new) }
        ensures err { IfErr result (IsErrorFor line (versions_verdict self.old limit)) }
    {
        let may_stand = self.stage.takes_versions();
        self.layout.limit = up_to(line, may_stand, limit, GREATEST_VERSION, Bound::Versions)?;
        self.stage = Stage::AtStart;
        Ok(())
    }

    fn take_start(&mut self, line: u32, version: u64) -> Result<(), TraceError>
        ensures ok { OnOk result (start_verdict self.old version ≡ Goes self.new) }
        ensures err { IfErr result (IsErrorFor line (start_verdict self.old version)) }
    {
        let may_start = self.stage.takes_start() && self.layout.values;
        if !may_start || version != 1 && version != 2 {
            return Err(TraceError::BadLine { line });
        }
        self.stage = Stage::InBlock;
        self.has_start = true;
        self.start_values = version == 2;
        Ok(())
    }

    fn take_word(&mut self, line: u32, word: u64, raw: u64) -> Result<(), TraceError>
        requires { IsSound self.old }
        ensures ok { OnOk result (word_verdict self.old word raw ≡ Goes self.new) }
        ensures err { IfErr result (IsErrorFor line (word_verdict self.old word raw)) }
    {
        let layout = self.start_layout();
        if self.stage.is_in_block()
            && u64::from(self.told) <= word
            && word < u64::from(layout.words())
            && raw != u64::from(layout.initial(word as u32))
        {
            self.told = word as u32 + 1;
            Ok(())
        } else {
            Err(TraceError::BadLine { line })
        }
    }

    fn take_begin(&mut self, line: u32) -> Result<(), TraceError>
        ensures ok { OnOk result (begin_verdict self.old ≡ Goes self.new) }
        ensures err { IfErr result (IsErrorFor line (begin_verdict self.old)) }
    {
        if !self.stage.is_in_block() {
            return Err(TraceError::BadLine { line });
        }
        self.stage = Stage::InBody;
        Ok(())
    }

    fn is_worker(&self, worker: u64) -> bool
        ensures { result ≡ is_worker self.now worker }
    {
        1 <= worker && worker <= u64::from(self.layout.workers)
    }

    fn is_value(&self, value: Option<u64>) -> bool
        ensures { result ≡ is_value self.now.layout.values value }
    {
        match value {
            Some(value) => self.layout.values && value <= MOST_VALUE,
            None => !self.layout.values,
        }
    }

    /// A call or evict line, `right` where its numbers may stand there, with as many calls.
    fn take_line(
        &mut self,
        line: u32,
        worker: u64,
        right: bool,
        calls: u32,
    ) -> Result<(), TraceError>
        requires sound { IsSound self.old }
        requires one { calls ≤ 1 }
        ensures ok { OnOk result (line_verdict self.old worker right calls ≡ Goes self.new) }
        ensures err { IfErr result (IsErrorFor line (line_verdict self.old worker right calls)) }
    {
        if !(self.stage.takes_body() && self.is_worker(worker) && right) {
            return Err(TraceError::BadLine { line });
        }
        if self.lines >= MOST_CALLS {
            return Err(TraceError::Limit {
                line,
                limit: Bound::Calls,
            });
        }
        self.stage = Stage::InBody;
        self.lines += 1;
        self.calls += calls;
        Ok(())
    }

    fn take_stop(&mut self, line: u32, worker: u64, events: u64) -> Result<(), TraceError>
        requires { IsSound self.old }
        ensures ok { OnOk result (stop_verdict self.old worker events ≡ Goes self.new) }
        ensures err { IfErr result (IsErrorFor line (stop_verdict self.old worker events)) }
    {
        if self.stage.takes_body() && self.is_worker(worker) && !self.has_stop(worker) {
            self.stage = Stage::InBody;
            self.stops[worker as usize - 1] = Some(events);
            Ok(())
        } else {
            Err(TraceError::BadLine { line })
        }
    }

    /// A line of the body that changes nothing but the stage, where the test holds.
    fn take_body(&mut self, line: u32, right: bool, next: Stage) -> Result<(), TraceError>
        ensures ok { OnOk result (only_if (takes_body self.old.stage && right)
            (Goes (record self.old { stage = next })) ≡ Goes self.new) }
        ensures err { IfErr result (IsErrorFor line
            (only_if (takes_body self.old.stage && right)
            (Goes (record self.old { stage = next })))) }
    {
        if self.stage.takes_body() && right {
            self.stage = next;
            Ok(())
        } else {
            Err(TraceError::BadLine { line })
        }
    }

    /// A turn of a worker.
    fn take_turn(&mut self, line: u32, worker: u64, events: u64) -> Result<(), TraceError>
        ensures ok { OnOk result (verdict self.old (Sentence.Turn worker events) ≡ Goes self.new) }
        ensures err { IfErr result (IsErrorFor line
            (verdict self.old (Sentence.Turn worker events))) }
    {
        let right = self.is_worker(worker) && 1 <= events;
        self.take_body(line, right, Stage::InBody)
    }

    /// A word named by an ahead line.
    fn take_ahead(&mut self, line: u32, word: u64) -> Result<(), TraceError>
        requires { IsSound self.old }
        ensures ok { OnOk result (verdict self.old (Sentence.Ahead word) ≡ Goes self.new) }
        ensures err { IfErr result (IsErrorFor line (verdict self.old (Sentence.Ahead word))) }
    {
        let right = self.is_word(word);
        self.take_body(line, right, Stage::InBody)
    }

    fn is_word(&self, word: u64) -> bool
        requires { IsSound self.now }
        ensures { result ≡ nat_lt word (words_of self.now.layout) }
    {
        word < u64::from(self.layout.words())
    }

    /// Takes what line `line` says: BadLine and Limit come where the line can't stand there.
    pub fn take(&mut self, line: u32, sentence: Sentence) -> Result<(), TraceError>
        requires { IsSound self.old }
        ensures ok { OnOk result (verdict self.old sentence ≡ Goes self.new) }
        ensures err { IfErr result (IsErrorFor line (verdict self.old sentence)) }
    {
        match sentence {
            Sentence::Version { number } => self.take_version(line, number),
            Sentence::Structure { kind, buckets } => self.take_structure(line, kind, buckets),
            Sentence::Adjacent => self.take_place(line, Place::Adjacent),
            Sentence::Hashed { slots } => self.take_hashed(line, slots),
            Sentence::Packed => self.take_place(line, Place::Packed),
            Sentence::Lines => self.take_place(line, Place::Lines),
            Sentence::Rows { rows } => self.take_rows(line, rows),
            Sentence::Workers { workers } => self.take_workers(line, workers),
            Sentence::Versions { limit } => self.take_versions(line, limit),
            Sentence::Start { version } => self.take_start(line, version),
            Sentence::Word { word, raw } => self.take_word(line, word, raw),
            Sentence::Begin => self.take_begin(line),
            Sentence::Insert { worker, key, value } => {
                let right = key <= MOST_KEY && self.is_value(value);
                self.take_line(line, worker, right, 1)
            }
            Sentence::Remove { worker, key } | Sentence::Contains { worker, key } => {
                self.take_line(line, worker, key <= MOST_KEY, 1)
            }
            Sentence::Get { worker, key } => {
                let right = self.layout.values && key <= MOST_KEY;
                self.take_line(line, worker, right, 1)
            }
            Sentence::Evict { worker, word } => {
                let right = self.is_word(word);
                self.take_line(line, worker, right, 0)
            }
            Sentence::Stop { worker, events } => self.take_stop(line, worker, events),
            Sentence::Turn { worker, events } => self.take_turn(line, worker, events),
            Sentence::Ahead { word } => self.take_ahead(line, word),
            Sentence::AheadAll => self.take_body(line, true, Stage::InBody),
            Sentence::End => self.take_body(line, true, Stage::Ended),
        }
    }
}
