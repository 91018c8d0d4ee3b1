//! A mark: a cell of the grid, and the grade that stands there.
ghost use Rattle.std.specs.Prelude.{◌≡◌, Decides};
ghost use Rattle.treap.specs.Spots.{Before, Outranks};
ghost use Rattle.boxtree.specs.Marks.{spot_of};

use crate::cell::Cell;
use grade::Grade;

/// The grade that stands in the cell (`row`, `col`).
#[derive(Clone, Copy, PartialEq, Eq, Debug)]
pub struct Mark<G> {
    pub row: u16,
    pub col: u16,
    pub grade: G,
}

impl<G> Mark<G> {
    /// The cell in which it stands.
    pub fn cell(&self) -> Cell
        ensures { result ≡ record { row = self.now.row; col = self.now.col } }
    {
        Cell {
            row: self.row,
            col: self.col,
        }
    }
}

impl<G: Grade> Mark<G> {
    /// Whether it outranks the other mark: by its grade, and with equal grades by the smaller row, then the smaller column.
    pub fn outranks(self, other: Mark<G>) -> bool
        ensures { Decides result (Outranks G.Grade.kind (spot_of G.Grade.coded self) (spot_of G.Grade.coded other)) }
    {
        if !other.grade.above(self.grade) {
            true
        } else if !self.grade.above(other.grade) {
            false
        } else {
            self.before(other)
        }
    }

    // Whether its cell comes before the other mark's. A function of its own, whose contract alone tells a wrong order of cells.
    fn before(self, other: Mark<G>) -> bool
        ensures { Decides result (Before (spot_of G.Grade.coded self) (spot_of G.Grade.coded other)) }
    {
        self.cell() < other.cell()
    }
}
