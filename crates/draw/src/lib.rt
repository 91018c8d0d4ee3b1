//! Windows drawn with their best marks, from any box tree.
#![tactic(auto)]

pub mod drawn;
pub mod entry;
pub mod refusal;
mod search;
mod view;

pub use drawn::Drawn;
pub use entry::Entry;
pub use refusal::DrawRefusal;
pub use search::draw;
