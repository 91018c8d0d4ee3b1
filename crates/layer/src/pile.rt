//! A pile of floors and shifts, given when the program runs, over a box tree.
ghost use Rattle.std.specs.Prelude.{◌≡◌, ◌+◌, ◌<◌, None};
ghost use Rattle.std.proofs.Props.{props};
ghost use Rattle.grade.specs.Kind.{codes};
ghost use Rattle.treap.specs.Layers.{shift_refusal};
ghost use Rattle.treap.specs.Piles.{piled, pile_refusal, stricter, through};
ghost use Rattle.layer.specs.Refusals.{shift_numbered};
ghost use Rattle.layer.specs.Piles.{layers_of, sum_of};

use crate::offset::Offset;
use crate::refusal::PastEdge;
use crate::shift::Shift;
use crate::sieve::Sieve;
use boxtree::mark::Mark;
use boxtree::refusal::Absent;
use boxtree::square::Square;
use boxtree::tree::BoxTree;
use grade::Grade;

/// One layer of a pile.
#[derive(Clone, Copy, PartialEq, Eq, Debug)]
pub enum Layer<G> {
    /// The boxes whose grade stands above or level with this one.
    Floor(G),
    /// All boxes, `rows` rows further down and `cols` columns further to the right.
    Shift { rows: u16, cols: u16 },
}

/// The boxes of the tree below through a pile: through its strictest floor, if it has one, and then all its shifts in one.
#[derive(Drop)]
pub struct Pile<'a, T: BoxTree> {
    sieve: Sieve<'a, T>,
    offset: Offset,
    pub ghost fits: { shift_refusal offset.rows offset.cols (T.BoxTree.shown sieve.below.now) ≡ None } by { Prim.hlevel props },
}

// The stricter of a floor that may be absent and one at `g`.
fn stricter_of<G: Grade>(least: Option<G>, g: G) -> G
    ensures { codes G.Grade.coded (Some result) ≡ stricter G.Grade.kind (codes G.Grade.coded least) (G.Grade.coded g) }
{
    least.filter(|h| h.above(g)).unwrap_or(g)
}

/// Whether the layers can be laid over the tree in their order: the first shift that would pass the edge where it is laid is
/// refused.
pub fn check_pile<T: BoxTree>(below: &T, layers: &[Layer<T::G>]) -> Result<(), PastEdge>
    ensures { shift_numbered result ≡ pile_refusal T.G.Grade.kind (layers_of T.G.Grade.coded layers.now) (T.BoxTree.shown below.now) }
{
    let mut square = below.square();
    for layer in layers {
        if let Layer::Shift { rows, cols } = *layer {
            let offset = Offset { rows, cols };
            if offset.past_edge(square) {
                return Err(PastEdge);
            }
            square = offset.square(square);
        }
    }
    Ok(())
}

impl<'a, T: BoxTree> Pile<'a, T> {
    /// The layers laid over the tree in their order. One step a layer, once; a question then costs what one floor and one shift
    /// cost, however many layers there are.
    pub fn over(below: &'a T, layers: &[Layer<T::G>]) -> Pile<'a, T>
        requires { pile_refusal T.G.Grade.kind (layers_of T.G.Grade.coded layers.now) (T.BoxTree.shown below.now) ≡ None }
        ensures below { result.sieve.below.now ≡ below.now }
        ensures shows { through T.G.Grade.kind (sum_of T.G.Grade.coded result.sieve.least result.offset.rows result.offset.cols) (T.BoxTree.shown below.now) ≡ piled T.G.Grade.kind (layers_of T.G.Grade.coded layers.now) (T.BoxTree.shown below.now) }
    {
        // That one floor and one shift show the pile rests on the law of the tree, which an answered square promises.
        let _ = below.square();
        let mut least = None;
        let mut offset = Offset { rows: 0, cols: 0 };
        for layer in layers {
            match *layer {
                Layer::Floor(g) => {
                    least = Some(stricter_of(least, g));
                }
                Layer::Shift { rows, cols } => {
                    offset.rows += rows;
                    offset.cols += cols;
                }
            }
        }
        Pile {
            sieve: Sieve { below, least },
            offset,
        }
    }

    // The two layers that show the pile.
    fn laid(&self) -> Shift<'_, Sieve<'a, T>>
        ensures below { result.below.now ≡ self.now.sieve }
        ensures rows { result.offset.rows ≡ self.now.offset.rows }
        ensures cols { result.offset.cols ≡ self.now.offset.cols }
    {
        Shift::over(&self.sieve, self.offset.rows, self.offset.cols)
    }
}

impl<T: BoxTree> BoxTree for Pile<'_, T> {
    type G = T::G;

    ghost shown = { λ p. through T.G.Grade.kind (sum_of T.G.Grade.coded p.sieve.least p.offset.rows p.offset.cols) (T.BoxTree.shown p.sieve.below.now) };

    fn square(&self) -> Square {
        self.laid().square()
    }

    fn root(&self) -> Option<u32> {
        self.laid().root()
    }

    fn child(&self, b: u32, q: u8) -> Result<Option<u32>, Absent> {
        self.laid().child(b, q)
    }

    fn mark(&self, b: u32) -> Result<Mark<T::G>, Absent> {
        self.laid().mark(b)
    }

    fn ceiling(&self) -> u16 {
        self.laid().ceiling()
    }
}
