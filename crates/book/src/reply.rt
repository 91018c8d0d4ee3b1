//! The answer to a line, and how it is written.
ghost use Rattle.book.specs.Replies.{reply_text, drawn_text, mark_text};
ghost use Rattle.std.specs.Prelude.{Some};

use std::fmt;

/// The answer to a line, one line itself.
#[derive(Clone, Copy, PartialEq, Eq, Debug)]
pub enum Reply {
    /// The command was carried out: `ok`.
    Done,
    /// The grade of the mark on a cell: `grade 5`.
    Grade(u16),
    /// There is no mark on the cell: `vacant`.
    Vacant,
    /// The command was refused, for the reason of this number: `no 24`.
    // The number and no error enum: it is all that a line tells, and a line knows of no other crate's reasons.
    No(u8),
}

impl fmt::Display for Reply {
    ghost output = { λ r. Some (reply_text r) };

    fn fmt<W: fmt::Write>(&self, f: &mut fmt::Formatter<W>) -> fmt::Result {
        match *self {
            Reply::Done => write!(f, "ok"),
            Reply::Grade(grade) => write!(f, "grade {grade}"),
            Reply::Vacant => write!(f, "vacant"),
            Reply::No(number) => write!(f, "no {number}"),
        }
    }
}

/// The first line of a draw: so many marks are drawn, for which so many boxes were opened: `drawn 1 opened 3`. A line for each
/// mark follows.
// This and `MarkLine` are made by their fields and not by `From` of a draw's answer and of a mark: how lines are written does not
// hang on box trees.
#[derive(Clone, Copy, PartialEq, Eq, Debug)]
pub struct DrawnLine {
    pub listed: usize,
    pub opened: u32,
}

impl fmt::Display for DrawnLine {
    ghost output = { λ d. Some (drawn_text d) };

    fn fmt<W: fmt::Write>(&self, f: &mut fmt::Formatter<W>) -> fmt::Result {
        write!(f, "drawn {} opened {}", self.listed, self.opened)
    }
}

/// A mark of a draw, by its row, column and grade, one line: `1 1 5`.
#[derive(Clone, Copy, PartialEq, Eq, Debug)]
pub struct MarkLine {
    pub row: u16,
    pub col: u16,
    pub grade: u16,
}

impl fmt::Display for MarkLine {
    ghost output = { λ m. Some (mark_text m) };

    fn fmt<W: fmt::Write>(&self, f: &mut fmt::Formatter<W>) -> fmt::Result {
        write!(f, "{} {} {}", self.row, self.col, self.grade)
    }
}
