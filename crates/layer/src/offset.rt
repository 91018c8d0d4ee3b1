//! How far a box tree is moved over the grid.
ghost use Rattle.std.specs.Prelude.{◌≡◌, ◌+◌, ◌<◌, ◌≤◌};
ghost use Rattle.treap.specs.Layers.{moved_spot, moved_square, past_edge};
ghost use Rattle.boxtree.specs.Marks.{spot_of};
ghost use Rattle.boxtree.specs.Squares.{square_of};

use boxtree::mark::Mark;
use boxtree::square::Square;
use grade::Grade;

/// So many rows further down and so many columns further to the right.
#[derive(Clone, Copy, PartialEq, Eq, Debug)]
pub(crate) struct Offset {
    pub(crate) rows: u16,
    pub(crate) cols: u16,
}

impl Offset {
    // Whether a row or a column of the square, moved so far, would pass 65,535.
    pub(crate) fn past_edge(self, square: Square) -> bool
        requires { square.level ≤ 16 }
        ensures { result ≡ past_edge self.rows self.cols (square_of square) }
    {
        let side = 1u32 << square.level;
        u32::from(square.top) + u32::from(self.rows) + side > 65536
            || u32::from(square.left) + u32::from(self.cols) + side > 65536
    }

    // The square, moved so far.
    pub(crate) fn square(self, square: Square) -> Square
        requires { (square.top + self.rows < 65536) × (square.left + self.cols < 65536) }
        ensures { square_of result ≡ moved_square self.rows self.cols (square_of square) }
    {
        Square {
            top: square.top + self.rows,
            left: square.left + self.cols,
            ..square
        }
    }

    // The mark, moved so far.
    pub(crate) fn mark<G: Grade>(self, mark: Mark<G>) -> Mark<G>
        requires { (mark.row + self.rows < 65536) × (mark.col + self.cols < 65536) }
        ensures { spot_of G.Grade.coded result ≡ moved_spot self.rows self.cols (spot_of G.Grade.coded mark) }
    {
        Mark {
            row: mark.row + self.rows,
            col: mark.col + self.cols,
            ..mark
        }
    }
}
