//! The calls on a plan. A refused call leaves the plan and its places as they were.
ghost use Rattle.std.specs.Prelude.{◌≡◌, ℕ, length, None};
ghost use Rattle.boxtree.specs.Marks.{spot_of};
ghost use Rattle.treap.specs.Trees.{Lawful, unnumbered};
ghost use Rattle.treap.specs.Plants.{plant};
ghost use Rattle.treap.specs.Ledgers.{open_refusal, blank, entries, answer, next, enter as entering, regrade as regrading, strike as striking, look as looking};
ghost use Rattle.plan.specs.Refusals.{numbered, done_or, graded_or, looked_up};
ghost use Rattle.plan.specs.Plans.{Sound, ledger, shown, on_plan, Kept, Located};

use crate::change::{put, root, take, whole};
use crate::place::Place;
use crate::plan::Plan;
use crate::refusal::PlanRefusal;
use crate::seek::seek;
use boxtree::cell::Cell;
use boxtree::mark::Mark;
use grade::Grade;

/// Whether a plan of side 2 to the power `h` can be opened over so many places.
pub fn check_open(h: u32, places: usize) -> Result<(), PlanRefusal>
    ensures { numbered result ≡ open_refusal h places }
{
    if h > 10 {
        return Err(PlanRefusal::Side);
    }
    if places == 0 || places > 65535 {
        return Err(PlanRefusal::Places);
    }
    Ok(())
}

impl<'a, G: Grade> Plan<'a, G> {
    /// A plan with no marks, over places that are lent to it. The places stay as they were.
    pub fn open(h: u32, places: &'a mut [Place<G>]) -> Plan<'a, G>
        requires { open_refusal h (length places.old) ≡ None }
        ensures blank { ledger G.Grade.coded result ≡ blank h (length places.old) }
        ensures places { result.places ≡ places.old }
    {
        Plan {
            h,
            count: 0,
            places,
        }
    }
}

impl<G: Grade> Plan<'_, G> {
    // How many boxes its tree has: as many as its ledger has marks. `sound` tells callers the invariant.
    pub(crate) fn boxes(&self) -> u16
        ensures is { result ≡ self.now.count }
        ensures sound { Sound G.Grade.kind G.Grade.coded self.now }
        ensures counted { result ≡ length (entries (ledger G.Grade.coded self.now)) }
    {
        self.count
    }

    // Whether a cell lies on it.
    fn covers(&self, cell: Cell) -> bool
        ensures { result ≡ on_plan self.now.h cell.row cell.col }
    {
        let side = 1u16 << self.h;
        cell.row < side && cell.col < side
    }

    // Its mark in a cell, or none where the cell is vacant. Refused where the cell lies off it.
    fn find(&self, cell: Cell) -> Result<Option<Mark<G>>, PlanRefusal>
        ensures { Located G.Grade.coded self.now cell.row cell.col result }
    {
        if !self.covers(cell) {
            return Err(PlanRefusal::Off);
        }
        Ok(seek(self.places, root(self.count), whole(self.h), cell))
    }

    /// Strikes all marks, and makes the side 2 to the power `h`. The places stay as they were.
    pub fn reopen(&mut self, h: u32)
        requires { open_refusal h (length self.old.places) ≡ None }
        ensures blank { ledger G.Grade.coded self.new ≡ blank h (length self.old.places) }
        ensures places { self.new.places ≡ self.old.places }
    {
        self.h = h;
        self.count = 0;
    }

    /// Enters a mark. Refused where its cell lies off the plan or has a mark, or where there are as many marks as places.
    pub fn enter(&mut self, mark: Mark<G>) -> Result<(), PlanRefusal>
        ensures answered { done_or result ≡ answer (ledger G.Grade.coded self.old) (entering (spot_of G.Grade.coded mark)) }
        ensures followed { ledger G.Grade.coded self.new ≡ next (ledger G.Grade.coded self.old) (entering (spot_of G.Grade.coded mark)) }
        ensures kept { Kept self.old self.new result }
    {
        if self.find(mark.cell())?.is_some() {
            return Err(PlanRefusal::Taken);
        }
        if self.marks() >= self.places() {
            return Err(PlanRefusal::Full);
        }
        put(self.places, self.h, self.count, mark);
        self.count += 1;
        Ok(())
    }

    /// Gives the mark in a cell another grade, or the same. Refused where the cell lies off the plan or has no mark.
    pub fn regrade(&mut self, mark: Mark<G>) -> Result<(), PlanRefusal>
        ensures answered { done_or result ≡ answer (ledger G.Grade.coded self.old) (regrading (spot_of G.Grade.coded mark)) }
        ensures followed { ledger G.Grade.coded self.new ≡ next (ledger G.Grade.coded self.old) (regrading (spot_of G.Grade.coded mark)) }
        ensures kept { Kept self.old self.new result }
    {
        // that there are no more marks than places is told by an answer
        let _ = self.boxes();
        self.strike(mark.row, mark.col)?;
        self.enter(mark)
    }

    /// Strikes the mark in a cell and answers its grade; its place is free again. Refused where the cell lies off the plan or
    /// has no mark.
    pub fn strike(&mut self, row: u16, col: u16) -> Result<G, PlanRefusal>
        ensures answered { graded_or G.Grade.coded result ≡ answer (ledger G.Grade.coded self.old) (striking row col) }
        ensures followed { ledger G.Grade.coded self.new ≡ next (ledger G.Grade.coded self.old) (striking row col) }
        ensures kept { Kept self.old self.new result }
    {
        // a row and a column, as callers have them; inside, a `Cell`
        let mark = self.find(Cell { row, col })?.ok_or(PlanRefusal::Vacant)?;
        take(self.places, self.h, self.count, mark);
        self.count -= 1;
        Ok(mark.grade)
    }

    /// The grade in a cell, or none where it is vacant. Refused where the cell lies off the plan.
    pub fn look(&self, row: u16, col: u16) -> Result<Option<G>, PlanRefusal>
        ensures { looked_up G.Grade.coded result ≡ answer (ledger G.Grade.coded self.now) (looking row col) }
    {
        // a row and a column, as callers have them; inside, a `Cell`
        Ok(self.find(Cell { row, col })?.map(|mark| mark.grade))
    }

    /// How many marks the plan has. What it shows is lawful, and is the box tree of its ledger's marks.
    pub fn marks(&self) -> usize
        ensures sound { Sound G.Grade.kind G.Grade.coded self.now }
        ensures counted { result ≡ length (entries (ledger G.Grade.coded self.now)) }
        ensures lawful { Lawful G.Grade.kind (shown G.Grade.coded self.now) }
        ensures planted { unnumbered (shown G.Grade.coded self.now).tree ≡ plant G.Grade.kind (shown G.Grade.coded self.now).square (entries (ledger G.Grade.coded self.now)) }
    {
        usize::from(self.boxes())
    }

    /// How many places the plan has.
    pub fn places(&self) -> usize
        ensures { result ≡ (ledger G.Grade.coded self.now).places }
    {
        self.places.len()
    }
}
