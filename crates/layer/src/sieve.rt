//! A box tree under a floor that may be absent.
ghost use Rattle.std.specs.Prelude.{◌≡◌, IsTrue, MatchOption};
ghost use Rattle.grade.specs.Kind.{codes};
ghost use Rattle.treap.specs.Piles.{under};

use boxtree::mark::Mark;
use boxtree::refusal::Absent;
use boxtree::square::Square;
use boxtree::tree::BoxTree;
use grade::Grade;

/// The boxes of the tree below whose grade stands above or level with `least`, or all of them where that is none.
#[derive(Drop)]
pub(crate) struct Sieve<'a, T: BoxTree> {
    pub(crate) below: &'a T,
    pub(crate) least: Option<T::G>,
}

impl<T: BoxTree> Sieve<'_, T> {
    // Whether a box with this mark is left.
    fn leaves(&self, mark: Mark<T::G>) -> bool
        ensures { MatchOption self.now.least (IsTrue result) (λ g. result ≡ T.G.Grade.kind.above (T.G.Grade.coded mark.grade) (T.G.Grade.coded g)) }
    {
        self.least.is_none_or(|g| mark.grade.above(g))
    }
}

impl<T: BoxTree> BoxTree for Sieve<'_, T> {
    type G = T::G;

    ghost shown = { λ s. under T.G.Grade.kind (codes T.G.Grade.coded s.least) (T.BoxTree.shown s.below.now) };

    fn square(&self) -> Square {
        self.below.square()
    }

    fn root(&self) -> Option<u32> {
        // without a floor the tree below is asked this alone
        if self.least.is_none() {
            return self.below.root();
        }
        let b = self.below.root()?;
        self.mark(b).is_ok().then_some(b)
    }

    fn child(&self, b: u32, q: u8) -> Result<Option<u32>, Absent> {
        // as in `root`
        if self.least.is_none() {
            return self.below.child(b, q);
        }
        let m = self.below.mark(b)?;
        if !self.leaves(m) {
            return Err(Absent);
        }
        let Some(c) = self.below.child(b, q)? else {
            return Ok(None);
        };
        Ok(self.mark(c).is_ok().then_some(c))
    }

    fn mark(&self, b: u32) -> Result<Mark<T::G>, Absent> {
        let m = self.below.mark(b)?;
        self.leaves(m).then_some(m).ok_or(Absent)
    }

    fn ceiling(&self) -> u16 {
        self.below.ceiling()
    }
}
