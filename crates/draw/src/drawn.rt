//! What an accepted draw answers.

/// How many marks are listed, and how many boxes were opened for it.
#[derive(Clone, Copy, PartialEq, Eq, Debug)]
pub struct Drawn {
    pub listed: usize,
    pub opened: u32,
}
