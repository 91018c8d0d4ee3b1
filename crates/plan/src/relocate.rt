//! Moving a box from one place to another.
ghost use Rattle.std.specs.Prelude.{length};
ghost use Rattle.boxtree.specs.Marks.{spot_of};
ghost use Rattle.boxtree.specs.Squares.{square_of};
ghost use Rattle.plan.specs.Places.{cells};
ghost use Rattle.plan.specs.Standing.{tree_in, Moves, Moved};

use crate::place::{Place, read, write};
use boxtree::mark::Mark;
use boxtree::square::Square;
use grade::Grade;

// Moves the box in the place `from`, which holds the mark, to the place `to`, and answers where the root of the tree then is.
pub(crate) fn relocate<G: Grade>(
    places: &mut [Place<G>],
    root: Option<u16>,
    square: Square,
    mark: Mark<G>,
    from: u16,
    to: u16,
) -> Option<u16>
    requires { Moves G.Grade.kind (square_of square) (length places.old) (cells G.Grade.coded places.old) (spot_of G.Grade.coded mark) from to (tree_in (square_of square) (cells G.Grade.coded places.old) root) }
    ensures { Moved G.Grade.kind (square_of square) from to (cells G.Grade.coded places.old) root (cells G.Grade.coded places.new) result }
{
    let i = root?;
    let here = read(places, i);
    if i == from {
        write(places, to, here);
        return Some(to);
    }
    let q = square.quadrant_at(mark.cell());
    let below = relocate(places, here.link(q), square.part(q), mark, from, to);
    write(places, i, here.relinked(here.mark, q, below));
    Some(i)
}
