//! Looking for the mark of a cell.
ghost use Rattle.std.specs.Prelude.{length};
ghost use Rattle.treap.specs.Trees.{Within};
ghost use Rattle.boxtree.specs.Marks.{spots_of};
ghost use Rattle.boxtree.specs.Squares.{square_of};
ghost use Rattle.plan.specs.Places.{cells};
ghost use Rattle.plan.specs.Standing.{tree_in, Stands, Found};

use crate::place::{Place, read};
use crate::rank::stands_in;
use boxtree::cell::Cell;
use boxtree::mark::Mark;
use boxtree::square::Square;
use grade::Grade;

// The mark in a cell of the square, of the tree whose root is in a place.
pub(crate) fn seek<G: Grade>(
    places: &[Place<G>],
    root: Option<u16>,
    square: Square,
    cell: Cell,
) -> Option<Mark<G>>
    requires inside { Within (square_of square) cell.row cell.col }
    requires stands { Stands G.Grade.kind (square_of square) (length places.now) (tree_in (square_of square) (cells G.Grade.coded places.now) root) }
    ensures { Found cell.row cell.col (tree_in (square_of square) (cells G.Grade.coded places.now) root) (spots_of G.Grade.coded result) }
{
    let here = read(places, root?);
    if stands_in(here.mark, cell) {
        return Some(here.mark);
    }
    let q = square.quadrant_at(cell);
    seek(places, here.link(q), square.part(q), cell)
}
