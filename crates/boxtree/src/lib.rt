//! Box trees: what they are made of, and what is asked of one.
#![tactic(auto)]

pub mod cell;
pub mod mark;
pub mod quadrant;
pub mod refusal;
pub mod square;
pub mod tree;
pub mod window;
