//! The generic half of a durable structure's proof: workers whose operations use the machines of the P-V Interface.
//!
//! A structure says what its operations are made of (`Anatomy`), what is kept true of the shared words, what others'
//! changes leave, and what an operation knows (`Crew`), and shows the obligations `Keeps`. Then the lemma `crew_lawful`
//! gives all laws of the structure's trait in one record: from `Keeps`, from what the structure shows of its openings
//! (`Begins`), and from its bounds and counts (`KeepsBounds`). No clause can range over crews, so a structure's own public
//! law names this lemma for its crew; the laws here are those with no structure in them.
//!
//! That whatever happens keeps all that holds (`Holds`) is `happens`; each crash image `crash`; the machine, its words and
//! the workers `Happening`; the events that are asked for `Asking`; what is told of an exchange `Telling`; replies
//! `Replying`, with the bound on Full in `Limiting`; the first moment `Opening`; and that one worker queues no word
//! `Queueing`.
#![tactic(auto)]

mod laws;

pub use laws::{aims_stay, rising_numbers};
