//! A box tree moved over the grid.
ghost use Rattle.std.specs.Prelude.{◌≡◌, None};
ghost use Rattle.std.proofs.Props.{props};
ghost use Rattle.treap.specs.Layers.{shifted, shift_refusal};
ghost use Rattle.layer.specs.Refusals.{shift_numbered};

use crate::offset::Offset;
use crate::refusal::PastEdge;
use boxtree::mark::Mark;
use boxtree::refusal::Absent;
use boxtree::square::Square;
use boxtree::tree::BoxTree;

/// The boxes of the tree below, so many rows further down and so many columns further to the right.
#[derive(Drop)]
pub struct Shift<'a, T: BoxTree> {
    below: &'a T,
    offset: Offset,
    pub ghost fits: { shift_refusal offset.rows offset.cols (T.BoxTree.shown below.now) ≡ None } by { Prim.hlevel props },
}

/// Whether the tree can be shifted so far.
// Rows and columns as two numbers, as callers have them; inside they are an `Offset`.
pub fn check_shift<T: BoxTree>(below: &T, rows: u16, cols: u16) -> Result<(), PastEdge>
    ensures { shift_numbered result ≡ shift_refusal rows cols (T.BoxTree.shown below.now) }
{
    let offset = Offset { rows, cols };
    if offset.past_edge(below.square()) {
        Err(PastEdge)
    } else {
        Ok(())
    }
}

impl<'a, T: BoxTree> Shift<'a, T> {
    /// The tree shifted by `rows` and `cols`.
    pub fn over(below: &'a T, rows: u16, cols: u16) -> Shift<'a, T>
        requires { shift_refusal rows cols (T.BoxTree.shown below.now) ≡ None }
        ensures below { result.below.now ≡ below.now }
        ensures rows { result.offset.rows ≡ rows }
        ensures cols { result.offset.cols ≡ cols }
    {
        Shift {
            below,
            offset: Offset { rows, cols },
        }
    }
}

impl<T: BoxTree> BoxTree for Shift<'_, T> {
    type G = T::G;

    ghost shown = { λ f. shifted f.offset.rows f.offset.cols (T.BoxTree.shown f.below.now) };

    fn square(&self) -> Square {
        self.offset.square(self.below.square())
    }

    fn root(&self) -> Option<u32> {
        self.below.root()
    }

    #[tactic(auto, using(crate::proofs::Replies::shift_child))]
    fn child(&self, b: u32, q: u8) -> Result<Option<u32>, Absent> {
        self.below.child(b, q)
    }

    fn mark(&self, b: u32) -> Result<Mark<T::G>, Absent> {
        let m = self.below.mark(b)?;
        Ok(self.offset.mark(m))
    }

    fn ceiling(&self) -> u16 {
        self.below.ceiling()
    }
}
