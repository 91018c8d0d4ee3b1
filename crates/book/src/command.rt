//! The commands that a line can say, and the refusal of a line that says none.
ghost use Rattle.std.proofs.Common.{rules};
ghost use Rattle.book.specs.Refusals.{refusal_number};

use refusals::Refusal;

/// What a line asks for. Every number is at most 65,535; whether it fits the plan is not looked at here.
#[derive(Clone, Copy, PartialEq, Eq, Debug)]
pub enum Command {
    /// Opens an empty plan whose side is 2 to the power `h`.
    New {
        h: u16,
    },
    /// Enters a mark of a grade on a cell.
    Enter {
        row: u16,
        col: u16,
        grade: u16,
    },
    /// Gives the mark on a cell another grade.
    Regrade {
        row: u16,
        col: u16,
        grade: u16,
    },
    /// Takes the mark off a cell.
    Strike {
        row: u16,
        col: u16,
    },
    /// Asks for the grade of the mark on a cell.
    Look {
        row: u16,
        col: u16,
    },
    /// Asks for the best marks of a window, `k` of them at most; `k` is at most 256.
    Draw {
        top: u16,
        left: u16,
        bottom: u16,
        right: u16,
        k: u16,
    },
}

/// The refusal of a line that says no command.
#[derive(Clone, Copy, PartialEq, Eq, Debug)]
pub struct Unusable;

impl Refusal for Unusable {
    ghost numbered = { refusal_number };

    ghost listed = { Prim.search rules };

    fn number(self) -> u8 {
        24
    }
}
