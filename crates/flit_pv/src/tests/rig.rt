ghost use Rattle.std.specs.Prelude.{◌≡◌, length};

use flit_model::{Event, Machine, one_place};
use flit_words::{Kind, Layout, Word};
use std::alloc::Global;
use std::process::Abort;
use std::test::Fail;

/// A machine on which events are made, and the events that were made.
#[derive(Drop)]
pub struct Rig {
    machine: Machine,
    words: u32,
    slots: u32,
    pub events: Vec<Event>,
    ghost words_are: { length machine.words ≡ words },
    ghost slots_are: { length machine.slots ≡ slots },
}

impl Rig {
    /// A list of rows whose words are all 0.
    pub fn of_rows(rt: &impl Abort, alloc: Global, rows: u32, slots: u32) -> Result<Rig, Fail> {
        let layout = Layout::new(Kind::List, 1, rows, slots, 2, 2147483647).ok_or("accepted")?;
        let words = vec![in alloc; 0; layout.words() as usize]?;
        assert_eq!(rt; words.len(), layout.words() as usize);
        Ok(Rig {
            machine: Machine::of(alloc, &layout, &words)?,
            words: layout.words(),
            slots: layout.slots,
            events: Vec::new(alloc),
        })
    }

    /// Makes an event, which must be one that this machine allows.
    pub fn make(&mut self, rt: &impl Abort, event: Event) -> Result<u64, Fail> {
        match event {
            Event::Load { word } => assert!(rt; word < self.words),
            Event::Exchange { word, .. } => assert!(rt; word < self.words),
            Event::Store { word, .. } => assert!(rt; word < self.words),
            Event::Persist { word, kept } => {
                assert!(rt; word < self.words);
                assert!(rt; !Word::unpack(kept).tagged);
            }
            Event::ReadTag { slot } => assert!(rt; slot < self.slots),
            Event::Raise { slot } => {
                assert!(rt; slot < self.slots);
                assert!(rt; self.machine.apply(Event::ReadTag { slot }) < u64::MAX);
            }
            Event::Lower { slot } => {
                assert!(rt; slot < self.slots);
                assert!(rt; 1 <= self.machine.apply(Event::ReadTag { slot }));
            }
            Event::Draw => panic!(rt; "no machine draws"),
        }
        self.events.push(event)?;
        one_place();
        Ok(self.machine.apply(event))
    }
}
