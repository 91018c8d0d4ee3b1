//! A place holds one box of a plan: its mark, and which places hold the boxes of its quadrants.
ghost use Rattle.std.specs.Prelude.{◌≡◌, ℕ, ◌<◌, length, ◌≢◌};
ghost use Rattle.boxtree.specs.Marks.{spot_of};
ghost use Rattle.plan.specs.Places.{Below, cells, cell_of, leaf_of, relink, link as link_to, link_of};
ghost use Rattle.boxtree.specs.Quadrants.{quadrant_of};

use boxtree::mark::Mark;
use boxtree::quadrant::Quadrant;
use grade::Grade;

// The place of a box, or none, in 16 bits: 0 is none, and any other number is one more than the place. An `Option<u16>` would take
// twice as many, and a box that owns those below it would need a heap, of which the library has none.
// Nothing compares or prints it.
#[derive(Clone, Copy)]
pub(crate) struct Link {
    next: u16,
}

impl Link {
    // The link to a place, or to none.
    pub(crate) fn new(place: Option<u16>) -> Link
        requires { Below 65535 place }
        ensures { link_of result ≡ place }
    {
        Link {
            next: place.map_or(0, |i| i + 1),
        }
    }

    // The place that it leads to, or none.
    pub(crate) fn place(self) -> Option<u16>
        ensures { result ≡ link_of self }
    {
        self.next.checked_sub(1)
    }
}

/// A place of a plan. The plan alone writes and reads it.
// Nothing compares or prints it.
#[derive(Clone, Copy)]
pub struct Place<G> {
    pub(crate) mark: Mark<G>,
    // the places of the boxes right below, by the index of their quadrant
    pub(crate) links: [Link; 4],
}

impl<G: Grade> Place<G> {
    /// A place to lend to a plan, filled with some grade; no plan reads it before it has written it.
    pub fn vacant(grade: G) -> Place<G>
        ensures { cell_of G.Grade.coded result ≡ leaf_of (record { row = 0; col = 0; grade = G.Grade.coded grade }) }
    {
        Place::leaf(Mark {
            row: 0,
            col: 0,
            grade,
        })
    }

    // A place that holds the mark and no boxes below it.
    pub(crate) fn leaf(mark: Mark<G>) -> Place<G>
        ensures { cell_of G.Grade.coded result ≡ leaf_of (spot_of G.Grade.coded mark) }
    {
        Place {
            mark,
            links: [Link::new(None); 4],
        }
    }

    // The place of the box in a quadrant.
    pub(crate) fn link(self, q: Quadrant) -> Option<u16>
        ensures { result ≡ link_to (quadrant_of q) (cell_of G.Grade.coded self) }
    {
        self.links[q as usize].place()
    }

    // The place with another mark, and another box in one quadrant.
    pub(crate) fn relinked(self, mark: Mark<G>, q: Quadrant, place: Option<u16>) -> Place<G>
        requires { Below 65535 place }
        ensures { cell_of G.Grade.coded result ≡ relink (quadrant_of q) (cell_of G.Grade.coded self) (spot_of G.Grade.coded mark) place }
    {
        let mut links = self.links;
        links[q as usize] = Link::new(place);
        Place { mark, links }
    }
}

// What the place `i` holds.
pub(crate) fn read<G: Grade>(places: &[Place<G>], i: u16) -> Place<G>
    requires { i < length places.now }
    ensures { cells G.Grade.coded places.now i ≡ cell_of G.Grade.coded result }
{
    places[usize::from(i)]
}

// Makes `place` what the place `i` holds, and leaves the others as they are.
pub(crate) fn write<G: Grade>(places: &mut [Place<G>], i: u16, place: Place<G>)
    requires { i < length places.old }
    ensures there { cells G.Grade.coded places.new i ≡ cell_of G.Grade.coded place }
    ensures elsewhere { (n : ℕ) → (n ≢ i) → cells G.Grade.coded places.new n ≡ cells G.Grade.coded places.old n }
{
    places[usize::from(i)] = place;
}
