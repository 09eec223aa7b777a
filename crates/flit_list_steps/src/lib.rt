//! The calls of Harris's list, over one head or over a head for each bucket: what each call asks next, and what an
//! answer makes of it.
//!
//! The algorithm is that of T. Harris, A pragmatic implementation of non-blocking linked-lists (DISC 2001): a row is
//! removed by a mark in its own link word, and unlinked by whoever passes it next. Each link word that a search has
//! passed is confirmed before its call relies on it.
#![tactic(auto)]

mod operations;

pub use operations::{Goal, LinkWord, ListOp, Path, Phase, Which};
