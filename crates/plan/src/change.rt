//! What the calls on a plan do in its places.
ghost use Rattle.std.specs.Prelude.{◌≡◌, ℕ, ◌+◌, ◌-◌, ◌<◌, ◌≤◌, length, true, false};
ghost use Rattle.boxtree.specs.Marks.{spot_of};
ghost use Rattle.treap.specs.Ledgers.{enter, strike, taken, graded, accepted};
ghost use Rattle.treap.specs.Trees.{Shows};
ghost use Rattle.treap.specs.Entries.{plan_square};
ghost use Rattle.boxtree.specs.Squares.{square_of};
ghost use Rattle.plan.specs.Plans.{root as root_at, plan_tree, Shape, ledger_at, on_plan, Done};

use crate::lift::lift;
use crate::place::{Place, read};
use crate::relocate::relocate;
use crate::sink::sink;
use boxtree::mark::Mark;
use boxtree::square::Square;
use grade::Grade;

// The square of a plan.
pub(crate) fn whole(h: u32) -> Square
    ensures { square_of result ≡ plan_square h }
{
    Square {
        level: h,
        top: 0,
        left: 0,
    }
}

// The place of the root of a plan.
pub(crate) fn root(count: u16) -> Option<u16>
    ensures { result ≡ root_at count }
{
    (count > 0).then_some(0)
}

// Puts a mark of a vacant cell into the places of a plan, where one is left: it gets the first that holds nothing.
// A function of the fields and no method: it runs while the plan's invariant is open.
pub(crate) fn put<G: Grade>(places: &mut [Place<G>], h: u32, count: u16, mark: Mark<G>)
    requires shape { Shape G.Grade.kind G.Grade.coded h count places.old }
    requires on { on_plan h mark.row mark.col ≡ true }
    requires vacant { taken (ledger_at G.Grade.coded h count places.old) mark.row mark.col ≡ false }
    requires room { count < length places.old }
    ensures { Done G.Grade.kind G.Grade.coded h (count + 1) (ledger_at G.Grade.coded h count places.old) (enter (spot_of G.Grade.coded mark)) places.new }
{
    // a grade's code is lawful by what `code` promises
    let _ = mark.grade.code();
    sink(places, root(count), whole(h), mark, count);
}

// Takes a mark of a plan out of its places. The last box moves into the place that is free then, so that the boxes fill the
// places before it again.
// A function of the fields and no method: it runs while the plan's invariant is open.
pub(crate) fn take<G: Grade>(places: &mut [Place<G>], h: u32, count: u16, mark: Mark<G>)
    requires shape { Shape G.Grade.kind G.Grade.coded h count places.old }
    requires shown { Shows (plan_tree G.Grade.coded h count places.old) (spot_of G.Grade.coded mark) }
    ensures some { 1 ≤ count }
    ensures answered { accepted (ledger_at G.Grade.coded h count places.old) (strike mark.row mark.col) ≡ graded (G.Grade.coded mark.grade) }
    ensures done { Done G.Grade.kind G.Grade.coded h (count - 1) (ledger_at G.Grade.coded h count places.old) (strike mark.row mark.col) places.new }
{
    let square = whole(h);
    // the root of a plan that has a mark is in place 0
    let freed = lift(places, Some(0), square, mark);
    let last = count - 1;
    if freed.place == last {
        return;
    }
    let moved = read(places, last);
    relocate(places, freed.root, square, moved.mark, last, freed.place);
}
