//! Layers through which a box tree is seen: floors, shifts, and piles of them.
#![tactic(auto)]

pub mod floor;
mod offset;
pub mod pile;
pub mod refusal;
pub mod shift;
mod sieve;
