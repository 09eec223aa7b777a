ghost use Rattle.std.specs.Prelude.{◌≡◌, ◌≤◌, ◌+◌, ◌^◌, ◌<◌, ◌∷◌, [], IsTrue};
ghost use Rattle.flit_pv.specs.VLoads.{v_load_started};
ghost use Rattle.flit_one_key.specs.Steps.{hand_at, key_word, value_word, links_none, searches, answers, hand_linked, linked_so, links, row_value_so, stores_value, words_so, stores, row_so, takes_row, value_next, key_is, key_isnt, key_got, head_none, head_so};
ghost use Rattle.flit_structure.specs.Meanings.{key_of, value_put};

use crate::samples::Sample;
use arrayvec::ArrayVec;
use flit_model::{Call, Reply};
use flit_one_key::{Phase, SampleOp};
use flit_place::Placement;
use flit_pv::{Exchanged, Exchanging, PExchange, PLoad, PrivateStore, Stored, Storing, VLoad};
use flit_rows::{TakeRow, Taking, Took};
use flit_words::{Link, Word};

const TO_ROW: u32 = 4;

/// Whether a head word links no row.
fn links_none(head: u64) -> bool
    ensures { result ≡ links_none head }
{
    Link::of(Word::unpack(head).value).row == 0
}

/// The key of a call.
pub(crate) fn key_of(call: Call) -> u32
    ensures { result ≡ key_of call }
{
    match call {
        Call::Insert(key, _) => key,
        Call::Remove(key) => key,
        Call::Contains(key) => key,
        Call::Get(key) => key,
    }
}

/// The value that a call puts in.
pub(crate) fn value_put(call: Call) -> u32
    ensures { result ≡ value_put call }
{
    match call {
        Call::Insert(_, value) => value,
        _ => 0,
    }
}

/// A search begins with the load of the head.
#[tactic(auto, using(flit_one_key::specs::Phases::same_hand))]
pub(crate) fn searches(op: &mut SampleOp)
    ensures { op.new ≡ searches op.old (hand_at op.old.at) }
{
    op.hand.tally.tries = op.hand.tally.tries.saturating_add(1);
    op.at = Phase::Head(PLoad::start(0));
}

/// The call has this reply once all that is queued is written back.
#[tactic(auto, using(flit_one_key::specs::Phases::same_hand))]
pub(crate) fn answers(op: &mut SampleOp, reply: Reply)
    ensures { op.new ≡ answers op.old (hand_at op.old.at) reply }
{
    op.reply = reply;
    op.at = Phase::Ends;
}

/// An insert's row is used where it is linked.
#[tactic(auto, using(flit_one_key::specs::Phases::same_hand))]
fn answers_linked(op: &mut SampleOp)
    ensures { op.new ≡ answers op.old (hand_linked op.old.call (hand_at op.old.at)) Reply.Yes }
{
    if let Call::Insert(_, _) = op.call {
        op.hand.spare[0] = 0;
    }
    op.reply = Reply::Yes;
    op.at = Phase::Ends;
}

pub(crate) fn linked_so(op: &mut SampleOp, how: Exchanged)
    ensures { op.new ≡ linked_so op.old (hand_at op.old.at) how }
{
    match how {
        Exchanged::Won => answers_linked(op),
        Exchanged::Lost { .. } => searches(op),
        Exchanged::Worn { word, version } => answers(op, Reply::Worn { word, version }),
    }
}

impl<P: Placement + Drop> Sample<P> {
    fn key_word(&self) -> u32
        ensures is { result ≡ key_word self.now.layout }
        ensures below { result < 2 ^ 31 }
    {
        self.layout.row_word(1, 0)
    }

    pub(crate) fn value_word(&self) -> u32
        requires { IsTrue self.now.layout.values }
        ensures is { result ≡ value_word self.now.layout }
        ensures below { result < 2 ^ 31 }
    {
        self.layout.value_word(1)
    }

    #[tactic(auto, using(flit_one_key::specs::Phases::same_hand))]
    fn links(&self, op: &mut SampleOp, head: u64, value: u32)
        ensures { op.new ≡ links self.now.layout op.old (hand_at op.old.at) head value }
    {
        let link = PExchange::start(0, head, value, self.layout.limit);
        match link.at {
            Exchanging::Ended(how) => linked_so(op, how),
            _ => op.at = Phase::Link(link),
        }
    }

    pub(crate) fn row_value_so(&self, op: &mut SampleOp, head: u64, how: Stored)
        ensures { op.new ≡ row_value_so self.now.layout op.old head (hand_at op.old.at) how }
    {
        match how {
            Stored::Stored => self.links(op, head, TO_ROW),
            Stored::Worn { word, version } => answers(op, Reply::Worn { word, version }),
        }
    }

    #[tactic(auto, using(flit_one_key::specs::Phases::same_hand))]
    fn stores_value(&self, op: &mut SampleOp, head: u64, value: u32)
        requires { IsTrue self.now.layout.values }
        ensures { op.new ≡ stores_value self.now.layout op.old (hand_at op.old.at) head value }
    {
        let mut values = ArrayVec::new();
        values.push(value);
        let store = PrivateStore::start(self.value_word(), values, self.layout.limit);
        match store.at {
            Storing::Ended(how) => self.row_value_so(op, head, how),
            _ => {
                op.store = store;
                op.at = Phase::RowValue { head };
            }
        }
    }

    pub(crate) fn words_so(&self, op: &mut SampleOp, head: u64, how: Stored)
        ensures { op.new ≡ words_so self.now.layout op.old head (value_put op.old.call)
            (hand_at op.old.at) how }
    {
        match how {
            Stored::Stored if self.layout.values => {
                let value = value_put(op.call);
                self.stores_value(op, head, value);
            }
            Stored::Stored => self.links(op, head, TO_ROW),
            Stored::Worn { word, version } => answers(op, Reply::Worn { word, version }),
        }
    }

    #[tactic(auto, using(flit_one_key::specs::Phases::same_hand))]
    fn stores(&self, op: &mut SampleOp, head: u64)
        ensures { op.new ≡ stores self.now.layout op.old (hand_at op.old.at) head }
    {
        let mut values = ArrayVec::new();
        values.push(key_of(op.call));
        values.push(0);
        let store = PrivateStore::start(self.key_word(), values, self.layout.limit);
        match store.at {
            Storing::Ended(how) => self.words_so(op, head, how),
            _ => {
                op.store = store;
                op.at = Phase::Words { head };
            }
        }
    }

    pub(crate) fn row_so(&self, op: &mut SampleOp, head: u64, took: Took)
        ensures { op.new ≡ row_so self.now.layout op.old head (hand_at op.old.at) took }
    {
        match took {
            Took::Taken if links_none(head) => self.stores(op, head),
            Took::Taken => searches(op),
            Took::None { ticket } => answers(op, Reply::Full { ticket }),
        }
    }

    #[tactic(auto, using(flit_one_key::specs::Phases::same_hand))]
    fn takes_row(&self, op: &mut SampleOp, head: u64)
        ensures { op.new ≡ takes_row self.now.layout self.now.pool op.old (hand_at op.old.at) head }
    {
        let take = TakeRow::start(&op.hand, 1, &self.pool);
        match take.at {
            Taking::Ended(took) => self.row_so(op, head, took),
            Taking::Draws => op.at = Phase::Row { head, take },
        }
    }

    #[tactic(auto, using(flit_one_key::specs::Phases::same_hand))]
    fn loads_value(&self, op: &mut SampleOp)
        requires { IsTrue self.now.layout.values }
        ensures { op.new ≡ value_next op.old (v_load_started (hand_at op.old.at)
            (value_word self.now.layout)) }
    {
        op.at = Phase::Value(VLoad::start(self.value_word()));
    }

    fn key_is(&self, op: &mut SampleOp, head: u64)
        ensures { op.new ≡ key_is self.now.layout op.old (hand_at op.old.at) head op.old.call }
    {
        match op.call {
            Call::Insert(_, _) => answers(op, Reply::No),
            Call::Remove(_) => self.links(op, head, 0),
            Call::Contains(_) => answers(op, Reply::Yes),
            Call::Get(_) if self.layout.values => self.loads_value(op),
            Call::Get(_) => answers(op, Reply::Found { value: 0 }),
        }
    }

    fn key_isnt(&self, op: &mut SampleOp, head: u64)
        ensures { op.new ≡ key_isnt self.now.layout self.now.pool op.old (hand_at op.old.at) head
            op.old.call }
    {
        match op.call {
            Call::Insert(_, _) => self.takes_row(op, head),
            _ => answers(op, Reply::No),
        }
    }

    pub(crate) fn key_got(&self, op: &mut SampleOp, head: u64, raw: u64)
        ensures { op.new ≡ key_got self.now.layout self.now.pool op.old (hand_at op.old.at) head
            raw }
    {
        if Word::unpack(raw).value == key_of(op.call) {
            self.key_is(op, head);
        } else {
            self.key_isnt(op, head);
        }
    }

    fn head_none(&self, op: &mut SampleOp, head: u64)
        ensures { op.new ≡ head_none self.now.layout self.now.pool op.old (hand_at op.old.at) head
            op.old.call }
    {
        match op.call {
            Call::Insert(_, _) => self.takes_row(op, head),
            _ => answers(op, Reply::No),
        }
    }

    #[tactic(auto, using(flit_one_key::specs::Phases::same_hand))]
    pub(crate) fn head_so(&self, op: &mut SampleOp, head: u64)
        ensures { op.new ≡ head_so self.now.layout self.now.pool op.old (hand_at op.old.at) head }
    {
        if links_none(head) {
            self.head_none(op, head);
        } else {
            op.at = Phase::Key {
                head,
                load: VLoad::start(self.key_word()),
            };
        }
    }
}
