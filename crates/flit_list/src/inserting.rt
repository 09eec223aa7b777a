ghost use Rattle.std.specs.Prelude.{◌≡◌, ◌<◌, ◌≤◌, ◌^◌};
ghost use Rattle.flit_words.specs.declared.limits.TheConstants.{GREATEST_VERSION};
ghost use Rattle.flit_words.specs.Layouts.{value_word_of};
ghost use Rattle.flit_words.specs.Links.{link_of};
ghost use Rattle.flit_words.specs.Words.{value_of};
ghost use Rattle.flit_pv.specs.declared.hands.Hand.{Hand};
ghost use Rattle.flit_pv.specs.Exchanges.{exchange_of, exchange_started};
ghost use Rattle.flit_pv.specs.VLoads.{v_load_started};
ghost use Rattle.flit_list_steps.specs.Steps.{carried, row_of, row_at, to_row, with_row_used, value_next, hand_at, answers, searches, tidies, marked_so, marks, linked_so, links, row_value_so, stores_value, words_so, stores, row_so, takes_row, found, absent, FitsLink};
ghost use Rattle.flit_structure.specs.Meanings.{key_of, value_put};

use crate::lists::List;
use arrayvec::ArrayVec;
use flit_list_steps::{ListOp, Path, Phase};
use flit_model::{Call, Reply};
use flit_place::Placement;
use flit_pv::{Exchanged, Exchanging, PExchange, PrivateStore, Stored, Storing, VLoad};
use flit_rows::{TakeRow, Taking, Took};
use flit_words::{Link, Word};

/// The key of a call.
pub(crate) fn key_of(call: Call) -> u32
    ensures { result ≡ key_of call }
{
    match call {
        Call::Insert(key, _) => key,
        Call::Remove(key) => key,
        Call::Contains(key) => key,
        Call::Get(key) => key,
    }
}

/// The value that a call puts in.
pub(crate) fn value_put(call: Call) -> u32
    ensures { result ≡ value_put call }
{
    match call {
        Call::Insert(_, value) => value,
        _ => 0,
    }
}

/// The link of a raw word.
pub(crate) fn link_of(raw: u64) -> Link
    ensures is { result ≡ link_of (value_of raw) }
    ensures row { result.row < 2 ^ 22 }
{
    Link::of(Word::unpack(raw).value)
}

/// The link to a row, without marks.
fn to_row(row: u32) -> u32
    requires { row < 2 ^ 22 }
    ensures { result ≡ to_row row }
{
    let link = Link {
        row,
        mark: false,
        frozen: false,
        by: 0,
    };
    link.value()
}

/// The call has this reply once all that is queued is written back.
#[tactic(auto, using(flit_list_steps::specs::Phases::same_hand))]
pub(crate) fn answers(op: &mut ListOp, reply: Reply)
    ensures { op.new ≡ answers (carried op.old) (hand_at op.old.at) reply }
{
    op.reply = reply;
    op.at = Phase::Ends;
}

/// An insert's row is used where it is linked.
#[tactic(auto, using(flit_list_steps::specs::Phases::same_hand))]
fn answers_linked(op: &mut ListOp)
    ensures { op.new ≡ answers (carried op.old) (with_row_used (hand_at op.old.at)) Reply.Yes }
{
    op.hand.spare[0] = 0;
    op.reply = Reply::Yes;
    op.at = Phase::Ends;
}

/// The exchange of `pred` to the row behind that which is looked at.
pub(crate) fn unlinking(path: &Path, limit: u32) -> PExchange
    requires { limit ≤ GREATEST_VERSION }
    ensures { (hand : Hand) → exchange_of hand result ≡ exchange_started hand path.now.pred.word
        path.now.pred.raw (to_row (row_of path.now.next.raw)) limit }
{
    let behind = to_row(link_of(path.next.raw).row);
    PExchange::start(path.pred.word, path.pred.raw, behind, limit)
}

impl<P: Placement + Drop> List<P> {
    /// A search begins with the load of the head of the key's bucket.
    #[tactic(auto, using(flit_list_steps::specs::Phases::same_hand))]
    pub(crate) fn searches(&self, op: &mut ListOp)
        ensures { op.new ≡ searches self.now.layout (carried op.old) (hand_at op.old.at) }
    {
        op.hand.tally.tries = op.hand.tally.tries.saturating_add(1);
        op.at = Phase::Head(VLoad::start(self.head(key_of(op.call))));
    }

    /// The row that the call has marked is unlinked, or another does it.
    #[tactic(auto, using(flit_list_steps::specs::Phases::same_hand))]
    fn tidies(&self, op: &mut ListOp)
        ensures { op.new ≡ tidies self.now.layout (carried op.old) (hand_at op.old.at) }
    {
        let tidy = unlinking(&op.path, self.layout.limit);
        match tidy.at {
            Exchanging::Ended(_) => answers(op, Reply::Yes),
            _ => op.at = Phase::Tidy(tidy),
        }
    }

    pub(crate) fn marked_so(&self, op: &mut ListOp, how: Exchanged)
        ensures { op.new ≡ marked_so self.now.layout (carried op.old) (hand_at op.old.at) how }
    {
        match how {
            Exchanged::Won => self.tidies(op),
            Exchanged::Lost { .. } => self.searches(op),
            Exchanged::Worn { word, version } => answers(op, Reply::Worn { word, version }),
        }
    }

    /// The row is marked.
    #[tactic(auto, using(flit_list_steps::specs::Phases::same_hand))]
    fn marks(&self, op: &mut ListOp)
        requires { FitsLink (hand_at op.old.at) }
        ensures { op.new ≡ marks self.now.layout (carried op.old) (hand_at op.old.at) }
    {
        let by = if self.layout.values { op.hand.name } else { 0 };
        let link = Link {
            row: link_of(op.path.next.raw).row,
            mark: true,
            frozen: false,
            by,
        };
        let next = op.path.next;
        let mark = PExchange::start(next.word, next.raw, link.value(), self.layout.limit);
        match mark.at {
            Exchanging::Ended(how) => self.marked_so(op, how),
            _ => op.at = Phase::Mark(mark),
        }
    }

    pub(crate) fn linked_so(&self, op: &mut ListOp, how: Exchanged)
        ensures { op.new ≡ linked_so self.now.layout (carried op.old) (hand_at op.old.at) how }
    {
        match how {
            Exchanged::Won => answers_linked(op),
            Exchanged::Lost { .. } => self.searches(op),
            Exchanged::Worn { word, version } => answers(op, Reply::Worn { word, version }),
        }
    }

    /// The insert's row is linked.
    #[tactic(auto, using(flit_list_steps::specs::Phases::same_hand))]
    fn links(&self, op: &mut ListOp)
        requires { FitsLink (hand_at op.old.at) }
        ensures { op.new ≡ links self.now.layout (carried op.old) (hand_at op.old.at) }
    {
        let pred = op.path.pred;
        let to = to_row(op.hand.spare[0]);
        let link = PExchange::start(pred.word, pred.raw, to, self.layout.limit);
        match link.at {
            Exchanging::Ended(how) => self.linked_so(op, how),
            _ => op.at = Phase::Link(link),
        }
    }

    pub(crate) fn row_value_so(&self, op: &mut ListOp, how: Stored)
        requires { FitsLink (hand_at op.old.at) }
        ensures { op.new ≡ row_value_so self.now.layout (carried op.old) (hand_at op.old.at) how }
    {
        match how {
            Stored::Stored => self.links(op),
            Stored::Worn { word, version } => answers(op, Reply::Worn { word, version }),
        }
    }

    #[tactic(auto, using(flit_list_steps::specs::Phases::same_hand))]
    fn stores_value(&self, op: &mut ListOp, value: u32)
        requires { FitsLink (hand_at op.old.at) }
        ensures { op.new ≡ stores_value self.now.layout (carried op.old) (hand_at op.old.at) value }
    {
        let mut values = ArrayVec::new();
        values.push(value);
        let word = self.value_word(op.hand.spare[0]);
        let store = PrivateStore::start(word, values, self.layout.limit);
        match store.at {
            Storing::Ended(how) => self.row_value_so(op, how),
            _ => {
                op.store = store;
                op.at = Phase::RowValue;
            }
        }
    }

    pub(crate) fn words_so(&self, op: &mut ListOp, how: Stored)
        requires { FitsLink (hand_at op.old.at) }
        ensures { op.new ≡ words_so self.now.layout (carried op.old) (value_put op.old.call)
            (hand_at op.old.at) how }
    {
        match how {
            Stored::Stored if self.layout.values => {
                let value = value_put(op.call);
                self.stores_value(op, value);
            }
            Stored::Stored => self.links(op),
            Stored::Worn { word, version } => answers(op, Reply::Worn { word, version }),
        }
    }

    /// The row's key and link are stored.
    #[tactic(auto, using(flit_list_steps::specs::Phases::same_hand))]
    fn stores(&self, op: &mut ListOp)
        requires { FitsLink (hand_at op.old.at) }
        ensures { op.new ≡ stores self.now.layout (carried op.old) (hand_at op.old.at) }
    {
        let mut values = ArrayVec::new();
        values.push(key_of(op.call));
        values.push(to_row(link_of(op.path.pred.raw).row));
        let word = self.key_word(op.hand.spare[0]);
        let store = PrivateStore::start(word, values, self.layout.limit);
        match store.at {
            Storing::Ended(how) => self.words_so(op, how),
            _ => {
                op.store = store;
                op.at = Phase::Words;
            }
        }
    }

    pub(crate) fn row_so(&self, op: &mut ListOp, took: Took)
        requires { FitsLink (hand_at op.old.at) }
        ensures { op.new ≡ row_so self.now.layout (carried op.old) (hand_at op.old.at) took }
    {
        match took {
            Took::Taken => self.stores(op),
            Took::None { ticket } => answers(op, Reply::Full { ticket }),
        }
    }

    /// A row is taken, where the hand has none.
    #[tactic(auto, using(flit_list_steps::specs::Phases::same_hand))]
    fn takes_row(&self, op: &mut ListOp)
        requires { FitsLink (hand_at op.old.at) }
        ensures { op.new ≡ takes_row self.now.layout self.now.pool (carried op.old) (hand_at op.old.at) }
    {
        let take = TakeRow::start(&op.hand, 1, &self.pool);
        match take.at {
            Taking::Ended(took) => self.row_so(op, took),
            Taking::Draws => op.at = Phase::Row(take),
        }
    }

    #[tactic(auto, using(flit_list_steps::specs::Phases::same_hand))]
    fn loads_value(&self, op: &mut ListOp)
        ensures { op.new ≡ value_next (carried op.old) (v_load_started (hand_at op.old.at)
            (value_word_of self.now.layout (row_at op.old.path))) }
    {
        let word = self.value_word(link_of(op.path.pred.raw).row);
        op.at = Phase::Value(VLoad::start(word));
    }

    /// The search has found the key.
    pub(crate) fn found(&self, op: &mut ListOp)
        requires { FitsLink (hand_at op.old.at) }
        ensures { op.new ≡ found self.now.layout (carried op.old) (hand_at op.old.at) op.old.call }
    {
        match op.call {
            Call::Insert(_, _) => answers(op, Reply::No),
            Call::Remove(_) => self.marks(op),
            Call::Contains(_) => answers(op, Reply::Yes),
            Call::Get(_) if self.layout.values => self.loads_value(op),
            Call::Get(_) => answers(op, Reply::Found { value: 0 }),
        }
    }

    /// The search has found that no row has the key.
    pub(crate) fn absent(&self, op: &mut ListOp)
        requires { FitsLink (hand_at op.old.at) }
        ensures { op.new ≡ absent self.now.layout self.now.pool (carried op.old) (hand_at op.old.at)
            op.old.call }
    {
        match op.call {
            Call::Insert(_, _) => self.takes_row(op),
            _ => answers(op, Reply::No),
        }
    }
}
