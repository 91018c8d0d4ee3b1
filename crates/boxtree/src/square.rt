//! The square of a box tree or of a box.
ghost use Rattle.std.specs.Prelude.{◌≡◌, pred, ◌+◌, ◌^◌};
ghost use Rattle.treap.specs.Trees.{Within, quadrant};
ghost use Rattle.boxtree.specs.Squares.{square_of, Divided};
ghost use Rattle.boxtree.specs.Quadrants.{quadrant_of};

use crate::cell::Cell;
use crate::quadrant::Quadrant;

/// A square of side 2 to the power `level`, whose first cell is (`top`, `left`).
#[derive(Clone, Copy, PartialEq, Eq, Debug)]
pub struct Square {
    pub level: u32,
    pub top: u16,
    pub left: u16,
}

impl Square {
    // The side of its quadrants. That it has them is asked and is no invariant: a square of side 1 is one too.
    fn half(self) -> u16
        requires { Divided (square_of self) }
        ensures is { result ≡ 2 ^ pred self.level }
        ensures twice { result + result ≡ 2 ^ self.level }
    {
        1 << (self.level - 1)
    }

    /// The square of a quadrant of a square on the grid that has quadrants.
    pub fn part(self, q: Quadrant) -> Square
        requires { Divided (square_of self) }
        ensures { square_of result ≡ quadrant (quadrant_of q) (square_of self) }
    {
        let half = self.half();
        let level = self.level - 1;
        let Square { top, left, .. } = self;
        match q {
            Quadrant::TopLeft => Square { level, top, left },
            Quadrant::TopRight => Square {
                level,
                top,
                left: left + half,
            },
            Quadrant::BottomLeft => Square {
                level,
                top: top + half,
                left,
            },
            Quadrant::BottomRight => Square {
                level,
                top: top + half,
                left: left + half,
            },
        }
    }

    /// The quadrant in which a cell of the square lies, where the square is on the grid and has quadrants.
    pub fn quadrant_at(self, cell: Cell) -> Quadrant
        requires divided { Divided (square_of self) }
        requires inside { Within (square_of self) cell.row cell.col }
        ensures { Within (quadrant (quadrant_of result) (square_of self)) cell.row cell.col }
    {
        let half = self.half();
        let below = cell.row >= self.top + half;
        let right = cell.col >= self.left + half;
        match (below, right) {
            (false, false) => Quadrant::TopLeft,
            (false, true) => Quadrant::TopRight,
            (true, false) => Quadrant::BottomLeft,
            (true, true) => Quadrant::BottomRight,
        }
    }
}
