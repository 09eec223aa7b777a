//! The words of a list or a hash table that many workers change, in any order: what is kept true of the words, their
//! shadows and the updates that wait, what each change leaves for others to rely on, and what a search may go on believing
//! of words that it has loaded. It speaks of no worker and of no machine.
//!
//! A list after Harris: link words lead from a head through rows with rising keys; a row is removed by a mark in its own
//! next word, and unlinked later. `Chained` says how the link words and their shadows agree, `Kept` what is kept of the
//! whole heap, `Later` what one change leaves, `Saw` what was seen.
#![tactic(auto)]

mod laws;

pub use laws::{
    changes, exchanges, lasting, link_words, loads, openings, own_exchanges, persistence,
    recoveries,
};
