//! The instructions of the P-V Interface: loads, exchanges, stores and fences by which whatever a worker depends on is
//! persistent before it exchanges a word, and before its call has its reply.
#![tactic(auto)]

mod confirms;
mod drafts;
mod evicts;
mod exchanges;
mod fences;
mod hands;
mod loads;
mod queues;
mod stores;
#[cfg(test)]
mod tests;
mod v_exchanges;
mod v_loads;

pub use confirms::{Confirm, Confirming};
pub use drafts::Drafts;
pub use evicts::{Evict, Evicting};
pub use exchanges::{Exchanged, Exchanging, PExchange};
pub use fences::{Complete, Fence};
pub use hands::Hand;
pub use loads::{Loading, PLoad};
pub use queues::{Noted, Queue};
pub use stores::{PrivateStore, Stored, Storing};
pub use v_exchanges::{VExchange, VExchanging};
pub use v_loads::{VLoad, VLoading};
