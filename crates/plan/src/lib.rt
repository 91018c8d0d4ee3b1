//! Plans: marks on a square grid, entered, regraded, struck and looked up, in places lent by the caller.
#![tactic(auto)]

mod change;
mod lift;
mod place;
pub mod plan;
mod rank;
pub mod refusal;
mod relocate;
pub mod run;
mod seek;
mod sink;
mod tree;

pub use place::Place;
pub use plan::Plan;
pub use plan::methods::check_open;
pub use refusal::PlanRefusal;
pub use run::{Answer, Call, carry_out};
