//! The theory of box trees. Each function carries one theorem as its contract, and answers 0, which says nothing.
#![tactic(auto)]

ghost use Rattle.treap.specs.Trees.{OneTree};
ghost use Rattle.treap.specs.Plants.{SomeTree};
ghost use Rattle.treap.specs.Entries.{LedgerTree, SameMarksSameTree};
ghost use Rattle.treap.specs.Draws.{SomeDraw, OneDraw};
ghost use Rattle.treap.specs.Layers.{FloorShows, ShiftShows};
ghost use Rattle.treap.specs.Piles.{OneFloorOneShift, SameDraw};
ghost use Rattle.treap.specs.Worked.{TrialDraws, Worked};

/// One square and one set of marks have one box tree, up to the numbers of the boxes.
pub fn one_tree() -> u8
    ensures { OneTree }
{
    0
}

/// Each set of marks without two in a cell has a box tree, the one worked out from the marks.
pub fn some_tree() -> u8
    ensures { SomeTree }
{
    0
}

/// The ledger of a lawful tree has the marks of the tree, and the tree is the one of these marks.
pub fn ledger_tree() -> u8
    ensures { LedgerTree }
{
    0
}

/// Two lawful trees with equal ledgers differ in box numbers only, and only trees with equal ledgers do.
pub fn same_marks_same_tree() -> u8
    ensures { SameMarksSameTree }
{
    0
}

/// Each draw has an answer.
pub fn some_draw() -> u8
    ensures { SomeDraw }
{
    0
}

/// A draw has one answer, which goes by the marks that are shown and not by the numbers of the boxes.
pub fn one_draw() -> u8
    ensures { OneDraw }
{
    0
}

/// A floor shows exactly the marks whose grade stands above or level with its own.
pub fn floor_shows() -> u8
    ensures { FloorShows }
{
    0
}

/// A shift shows exactly the marks of the tree below, moved.
pub fn shift_shows() -> u8
    ensures { ShiftShows }
{
    0
}

/// Any pile shows what one floor under one shift shows.
pub fn one_floor_one_shift() -> u8
    ensures { OneFloorOneShift }
{
    0
}

/// Equal marks, drawn through equal piles of floors and shifts, give equal lists and counts.
pub fn same_draw() -> u8
    ensures { SameDraw }
{
    0
}

/// What the definitions give for a small plan and for some monuments.
pub fn worked_examples() -> u8
    ensures { Worked }
{
    0
}

/// What the definitions give for some draws from the small plan.
pub fn worked_draws() -> u8
    ensures { TrialDraws }
{
    0
}
