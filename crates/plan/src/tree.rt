//! A plan as a box tree. The number of a box is its place.
ghost use Rattle.std.specs.Prelude.{◌≡◌, nat_lt};
ghost use Rattle.treap.specs.Trees.{Lawful, find};
ghost use Rattle.plan.specs.Boxes.{BoxRead};
ghost use Rattle.plan.specs.Plans.{Sound, shown};

use crate::change::{root, whole};
use crate::place::{Place, read};
use crate::plan::Plan;
use boxtree::mark::Mark;
use boxtree::quadrant::Quadrant;
use boxtree::refusal::Absent;
use boxtree::square::Square;
use boxtree::tree::BoxTree;
use grade::Grade;

impl<G: Grade> Plan<'_, G> {
    // Whether it has the box `b`.
    fn has_box(&self, b: u32) -> bool
        ensures is { result ≡ nat_lt b self.now.count }
        ensures sound { Sound G.Grade.kind G.Grade.coded self.now }
    {
        b < u32::from(self.count)
    }

    // The place that holds the box `b`.
    fn box_place(&self, b: u32) -> Result<Place<G>, Absent>
        ensures holds { BoxRead G.Grade.coded (find b (shown G.Grade.coded self.now).tree) result }
        ensures lawful { Lawful G.Grade.kind (shown G.Grade.coded self.now) }
    {
        if !self.has_box(b) {
            return Err(Absent);
        }
        Ok(read(self.places, b as u16))
    }
}

impl<G: Grade> BoxTree for Plan<'_, G> {
    type G = G;

    ghost shown = { λ p. shown G.Grade.coded p };

    fn square(&self) -> Square {
        whole(self.h)
    }

    fn root(&self) -> Option<u32> {
        root(self.count).map(u32::from)
    }

    fn child(&self, b: u32, q: u8) -> Result<Option<u32>, Absent> {
        let here = self.box_place(b)?;
        let quadrant = Quadrant::try_from(q)?;
        Ok(here.link(quadrant).map(u32::from))
    }

    fn mark(&self, b: u32) -> Result<Mark<G>, Absent> {
        let here = self.box_place(b)?;
        Ok(here.mark)
    }

    fn ceiling(&self) -> u16 {
        self.boxes()
    }
}
