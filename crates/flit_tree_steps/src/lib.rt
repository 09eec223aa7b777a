//! The calls of the Natarajan-Mittal tree: what each call asks next, and what an answer makes of it.
//!
//! The algorithm is that of A. Natarajan and N. Mittal, Fast concurrent lock-free binary search trees (PPoPP 2014). Keys
//! stand in leaves alone. A leaf is removed by a flag on the edge that leads to it. Its clean-up freezes the other edge
//! of that row, its sibling, and swings the edge of an ancestor to the row that the sibling leads to; whoever finds a
//! flagged or a frozen edge makes the clean-up first.
#![tactic(auto)]

mod operations;

pub use operations::{CleanUp, EdgeWord, Path, Phase, TreeOp};
