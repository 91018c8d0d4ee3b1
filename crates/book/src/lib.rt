//! The lines of a book: where a line ends, which command it says, and how the answer to it is written.
#![tactic(auto)]

mod command;
mod grammar;
mod lines;
mod reply;

pub use command::{Command, Unusable};
pub use grammar::parse;
pub use lines::first_line;
pub use reply::{DrawnLine, MarkLine, Reply};
