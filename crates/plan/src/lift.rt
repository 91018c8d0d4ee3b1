//! Taking a mark out of the tree of a plan.
ghost use Rattle.std.specs.Prelude.{◌≡◌, ℕ, ◌<◌, ◌≤◌, length, Some};
ghost use Rattle.treap.specs.Trees.{Shows};
ghost use Rattle.boxtree.specs.Marks.{spot_of};
ghost use Rattle.boxtree.specs.Quadrants.{quadrant_of};
ghost use Rattle.boxtree.specs.Squares.{square_of};
ghost use Rattle.plan.specs.Places.{cells, cell_of, Below, link};
ghost use Rattle.plan.specs.Standing.{tree_in, Stands, Lifted, Linked};
ghost use Rattle.plan.specs.Children.{children_of, ChildAt, Better, Best};

use crate::place::{Place, read, write};
use crate::rank::stands_in;
use boxtree::mark::Mark;
use boxtree::quadrant::Quadrant;
use boxtree::square::Square;
use grade::Grade;

// A box right below another: its quadrant, its place and its mark. Nothing compares or prints it.
#[derive(Clone, Copy)]
pub(crate) struct Child<G> {
    pub(crate) quadrant: Quadrant,
    pub(crate) place: u16,
    pub(crate) mark: Mark<G>,
}

// The box in a quadrant.
fn child_in<G: Grade>(places: &[Place<G>], here: Place<G>, quadrant: Quadrant) -> Option<Child<G>>
    requires { Below (length places.now) (link (quadrant_of quadrant) (cell_of G.Grade.coded here)) }
    ensures { ChildAt (cells G.Grade.coded places.now) (cell_of G.Grade.coded here) (quadrant_of quadrant) (children_of G.Grade.coded result) }
{
    let place = here.link(quadrant)?;
    Some(Child {
        quadrant,
        place,
        mark: read(places, place).mark,
    })
}

// The one of two boxes whose mark outranks the other's.
fn better<G: Grade>(first: Option<Child<G>>, second: Option<Child<G>>) -> Option<Child<G>>
    ensures { Better G.Grade.kind (children_of G.Grade.coded first) (children_of G.Grade.coded second) (children_of G.Grade.coded result) }
{
    match (first, second) {
        (None, _) => second,
        (_, None) => first,
        (Some(x), Some(y)) => if y.mark.outranks(x.mark) {
            second
        } else {
            first
        },
    }
}

// The box right below whose mark outranks those of the others.
fn best_child<G: Grade>(places: &[Place<G>], here: Place<G>) -> Option<Child<G>>
    requires { Linked (length places.now) (cell_of G.Grade.coded here) }
    ensures { Best G.Grade.kind (cells G.Grade.coded places.now) (cell_of G.Grade.coded here) (children_of G.Grade.coded result) }
{
    let mut best = None;
    for q in Quadrant::ALL {
        best = better(best, child_in(places, here, q));
    }
    best
}

// What is left of a tree once a mark is taken out of it: the place of its root, and the place that is now free.
// Nothing compares or prints it.
#[derive(Clone, Copy)]
pub(crate) struct Freed {
    pub(crate) root: Option<u16>,
    pub(crate) place: u16,
}

// Takes the root's mark out of the tree whose root is in the place `i`. The best mark right below moves up into its box, and
// so on down to a box with none below it, whose place is free.
pub(crate) fn pull<G: Grade>(places: &mut [Place<G>], i: u16, square: Square) -> Freed
    requires { Stands G.Grade.kind (square_of square) (length places.old) (tree_in (square_of square) (cells G.Grade.coded places.old) (Some i)) }
    ensures { Lifted G.Grade.kind (square_of square) (cells G.Grade.coded places.old i).mark (cells G.Grade.coded places.old) (Some i) (cells G.Grade.coded places.new) result.root result.place }
{
    let here = read(places, i);
    match best_child(places, here) {
        None => Freed {
            root: None,
            place: i,
        },
        Some(best) => {
            let freed = pull(places, best.place, square.part(best.quadrant));
            write(
                places,
                i,
                here.relinked(best.mark, best.quadrant, freed.root),
            );
            Freed {
                root: Some(i),
                place: freed.place,
            }
        }
    }
}

// Takes a mark that the tree shows out of it.
pub(crate) fn lift<G: Grade>(
    places: &mut [Place<G>],
    root: Option<u16>,
    square: Square,
    mark: Mark<G>,
) -> Freed
    requires stands { Stands G.Grade.kind (square_of square) (length places.old) (tree_in (square_of square) (cells G.Grade.coded places.old) root) }
    requires shown { Shows (tree_in (square_of square) (cells G.Grade.coded places.old) root) (spot_of G.Grade.coded mark) }
    ensures { Lifted G.Grade.kind (square_of square) (spot_of G.Grade.coded mark) (cells G.Grade.coded places.old) root (cells G.Grade.coded places.new) result.root result.place }
{
    // a tree that shows a mark has a root
    let i = root.unwrap();
    let here = read(places, i);
    let cell = mark.cell();
    if stands_in(here.mark, cell) {
        return pull(places, i, square);
    }
    let q = square.quadrant_at(cell);
    let freed = lift(places, here.link(q), square.part(q), mark);
    write(places, i, here.relinked(here.mark, q, freed.root));
    Freed {
        root: Some(i),
        place: freed.place,
    }
}
