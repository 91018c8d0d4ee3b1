//! A floor over a box tree.
ghost use Rattle.std.specs.Prelude.{◌≡◌, Some};
ghost use Rattle.treap.specs.Layers.{floored};

use crate::sieve::Sieve;
use boxtree::mark::Mark;
use boxtree::refusal::Absent;
use boxtree::square::Square;
use boxtree::tree::BoxTree;

/// The boxes of the tree below whose grade stands above or level with `least`.
#[derive(Drop)]
pub struct Floor<'a, T: BoxTree> {
    below: &'a T,
    least: T::G,
}

impl<'a, T: BoxTree> Floor<'a, T> {
    /// A floor at `least` over the tree.
    pub fn over(below: &'a T, least: T::G) -> Floor<'a, T>
        ensures below { result.below.now ≡ below.now }
        ensures least { result.least ≡ least }
    {
        Floor { below, least }
    }

    // The floor as a sieve, which answers for it; a trait has no way to hand all its questions on.
    fn sieve(&self) -> Sieve<'a, T>
        ensures below { result.below.now ≡ self.now.below.now }
        ensures least { result.least ≡ Some self.now.least }
    {
        Sieve {
            below: self.below,
            least: Some(self.least),
        }
    }
}

impl<T: BoxTree> BoxTree for Floor<'_, T> {
    type G = T::G;

    ghost shown = { λ f. floored T.G.Grade.kind (T.G.Grade.coded f.least) (T.BoxTree.shown f.below.now) };

    fn square(&self) -> Square {
        self.sieve().square()
    }

    fn root(&self) -> Option<u32> {
        self.sieve().root()
    }

    fn child(&self, b: u32, q: u8) -> Result<Option<u32>, Absent> {
        self.sieve().child(b, q)
    }

    fn mark(&self, b: u32) -> Result<Mark<T::G>, Absent> {
        self.sieve().mark(b)
    }

    fn ceiling(&self) -> u16 {
        self.sieve().ceiling()
    }
}
