//! The pool of free rows, which goes to the workers by one row counter: each row to one worker, once.
#![tactic(auto)]

mod dealing;
mod pool;
mod take_row;
mod takers;
#[cfg(test)]
mod tests;

pub use dealing::{
    counter_within, dealt_rows_are_free, draw_deals, each_row_once, fresh_is_dealt, past_the_end,
    spare_rows_few, take_ends, take_keeps, take_lists, take_stands_right, use_keeps_dealt,
};
pub use pool::Pool;
pub use take_row::{TakeRow, Taking, Took};
pub use takers::{draws_past_the_end, none_is_full, rows_go_once, takers_are_fair};
