//! Tallies of draws.
#![tactic(auto)]

mod tally;

pub use tally::{Tally, TallyFull};
