//! Queues that give entries by rank, over slots lent by the caller, for every kind of entry that has a ranking.
#![tactic(auto)]

mod heap;
mod queue;
mod ranked;
mod slots;

pub use queue::Queue;
pub use ranked::Ranked;
