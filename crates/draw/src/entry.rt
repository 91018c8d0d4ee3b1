//! The boxes that wait in the queue of a draw.
ghost use Rattle.std.specs.Prelude.{◌≡◌};
ghost use Rattle.boxtree.specs.Squares.{square_of};
ghost use Rattle.draw.specs.Ranked.{ranked};
ghost use Rattle.boxtree.specs.Marks.{spot_of};
ghost use Rattle.queue.proofs.Rankings.{ranking_on};
ghost use Rattle.draw.specs.Orders.{ranking_spots};

use boxtree::mark::Mark;
use boxtree::square::Square;
use grade::Grade;
use queue::Ranked;

/// A box that waits to be opened: its number, its square and its mark.
#[derive(Clone, Copy, PartialEq, Eq, Debug)]
pub struct Entry<G> {
    pub number: u32,
    pub square: Square,
    pub mark: Mark<G>,
}

impl<G: Grade> Entry<G> {
    /// An entry to fill a queue with before it is lent; a draw writes a place of its queue before it reads it.
    pub fn vacant(grade: G) -> Entry<G>
        ensures number { result.number ≡ 0 }
        ensures square { square_of result.square ≡ record { level = 0; top = 0; left = 0 } }
        ensures mark { result.mark ≡ record { row = 0; col = 0; grade = grade } }
    {
        Entry {
            number: 0,
            square: Square {
                level: 0,
                top: 0,
                left: 0,
            },
            mark: Mark {
                row: 0,
                col: 0,
                grade,
            },
        }
    }
}

impl<G: Grade> Ranked for Entry<G> {
    ghost over = { ranked G.Grade.kind G.Grade.coded };

    ghost laws = { ranking_on (λ a. spot_of G.Grade.coded a.mark) _ (ranking_spots G.Grade.kind G.Grade.laws) };

    fn outranks(self, other: Entry<G>) -> bool {
        self.mark.outranks(other.mark)
    }
}
