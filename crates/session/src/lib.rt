//! Sessions: a plan of points, opened and changed line by line.
#![tactic(auto)]

mod answer;
mod drawing;
mod refusal;
mod session;

pub use session::Session;
