//! What is asked of a box tree.
ghost use Rattle.std.specs.Prelude.{◌≡◌, ℕ};
ghost use Rattle.treap.specs.Trees.{Meaning, Lawful, number, find};
ghost use Rattle.boxtree.specs.Squares.{square_of};
ghost use Rattle.boxtree.specs.Answers.{child_of, mark_of, spotted};

use crate::mark::Mark;
use crate::refusal::Absent;
use crate::square::Square;
use grade::Grade;

/// A tree of boxes, each with a number of its own. A question changes nothing, and is answered from what the tree shows.
pub trait BoxTree {
    type G: Grade;

    // Its square, its boxes, and a number that the count of these does not pass. It is lawful, as three of the answers say.
    ghost shown: { Self → Meaning };

    /// The square of the tree and of its root.
    fn square(&self) -> Square
        ensures is { square_of result ≡ (shown self.now).square }
        ensures lawful { Lawful Self.G.Grade.kind (shown self.now) };

    /// The root, if there is a box.
    fn root(&self) -> Option<u32>
        ensures { result ≡ number (shown self.now).tree };

    /// The box in quadrant `q` of the box `b`, if there is one: 0 top left, 1 top right, 2 bottom left, 3 bottom right.
    // An index and no `Quadrant`: that one above 3 is refused is a rule of box trees.
    fn child(&self, b: u32, q: u8) -> Result<Option<u32>, Absent>
        ensures { result ≡ child_of q (find b (shown self.now).tree) };

    /// The mark of the box `b`.
    fn mark(&self, b: u32) -> Result<Mark<Self::G>, Absent>
        ensures is { spotted Self.G.Grade.coded result ≡ mark_of (find b (shown self.now).tree) }
        ensures lawful { Lawful Self.G.Grade.kind (shown self.now) };

    /// A number that the count of the boxes does not pass.
    fn ceiling(&self) -> u16
        ensures is { result ≡ (shown self.now).ceiling }
        ensures lawful { Lawful Self.G.Grade.kind (shown self.now) };
}
