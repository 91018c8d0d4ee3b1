//! Which of two marks outranks the other, and where a mark stands.
ghost use Rattle.std.specs.Prelude.{◌≡◌};
ghost use Rattle.boxtree.specs.Marks.{spot_of};
ghost use Rattle.treap.specs.Sums.{at_cell};
ghost use Rattle.treap.specs.Changes.{Ranked};

use boxtree::cell::Cell;
use boxtree::mark::Mark;
use grade::Grade;

// Whether the mark stands in the cell.
pub(crate) fn stands_in<G: Grade>(m: Mark<G>, cell: Cell) -> bool
    ensures { result ≡ at_cell cell.row cell.col (spot_of G.Grade.coded m) }
{
    cell == m.cell()
}

// Two marks, the one that outranks the other first. Nothing compares or prints them.
#[derive(Clone, Copy)]
pub(crate) struct Ranking<G> {
    pub(crate) up: Mark<G>,
    pub(crate) down: Mark<G>,
}

pub(crate) fn rank_pair<G: Grade>(m: Mark<G>, n: Mark<G>) -> Ranking<G>
    ensures { Ranked G.Grade.kind (spot_of G.Grade.coded m) (spot_of G.Grade.coded n) (spot_of G.Grade.coded result.up) (spot_of G.Grade.coded result.down) }
{
    if m.outranks(n) {
        Ranking { up: m, down: n }
    } else {
        Ranking { up: n, down: m }
    }
}
