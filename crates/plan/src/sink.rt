//! Entering a mark into the tree of a plan.
ghost use Rattle.std.specs.Prelude.{length};
ghost use Rattle.boxtree.specs.Marks.{spot_of};
ghost use Rattle.boxtree.specs.Squares.{square_of};
ghost use Rattle.plan.specs.Places.{cells};
ghost use Rattle.plan.specs.Standing.{tree_in, Sinks, Sunk};

use crate::place::{Place, read, write};
use crate::rank::rank_pair;
use boxtree::mark::Mark;
use boxtree::square::Square;
use grade::Grade;

// Lets a mark sink into the tree whose root is in a place, and answers where the root then is. In each box on the way the
// better mark stays and the other goes on into its quadrant; the last one gets the place `fresh`.
// Places, root and square are no struct: each step down has another root and square, and it would be made anew at each.
pub(crate) fn sink<G: Grade>(
    places: &mut [Place<G>],
    root: Option<u16>,
    square: Square,
    mark: Mark<G>,
    fresh: u16,
) -> u16
    requires { Sinks G.Grade.kind (square_of square) (length places.old) (spot_of G.Grade.coded mark) fresh (tree_in (square_of square) (cells G.Grade.coded places.old) root) }
    ensures { Sunk G.Grade.kind (square_of square) (spot_of G.Grade.coded mark) fresh (cells G.Grade.coded places.old) root (cells G.Grade.coded places.new) result }
{
    match root {
        None => {
            write(places, fresh, Place::leaf(mark));
            fresh
        }
        Some(i) => {
            let here = read(places, i);
            let pair = rank_pair(mark, here.mark);
            let q = square.quadrant_at(pair.down.cell());
            let below = sink(places, here.link(q), square.part(q), pair.down, fresh);
            write(places, i, here.relinked(pair.up, q, Some(below)));
            i
        }
    }
}
