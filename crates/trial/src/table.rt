//! A plan beside a plain table of its cells: both get the same calls, and every answer is compared.
use crate::answers::Seen::*;
use crate::answers::*;
use boxtree::mark::Mark;
use grade::points::Points;
use numbers::Numbers;
use plan::{Call, Place, Plan, PlanRefusal};
use std::alloc::{AllocError, Global};
use std::process::Abort;
use std::test::Fail;

// The grades of the cells of a plan of a side and so many places, row by row. A call is answered by its cell alone, and by
// how many marks there are.
#[derive(Drop)]
pub(crate) struct Table<const SIDE: usize> {
    cells: [[Option<u16>; SIDE]; SIDE],
    places: usize,
}

impl<const SIDE: usize> Table<SIDE> {
    fn blank(places: usize) -> Table<SIDE> {
        Table {
            cells: [[None; SIDE]; SIDE],
            places,
        }
    }

    // A cell, or the refusal of one that lies off the table.
    fn cell(&self, row: u16, col: u16) -> Result<&Option<u16>, u8> {
        let cells = self.cells.get(usize::from(row)).ok_or(4)?;
        cells.get(usize::from(col)).ok_or(4)
    }

    // A cell to be changed, or the same refusal.
    fn cell_mut(&mut self, row: u16, col: u16) -> Result<&mut Option<u16>, u8> {
        let cells = self.cells.get_mut(usize::from(row)).ok_or(4)?;
        cells.get_mut(usize::from(col)).ok_or(4)
    }

    // How many marks it has.
    fn count(&self) -> usize {
        // tried: the count of a `flatten` of rows has no bound that a proof finds
        let mut marks = 0usize;
        for cells in &self.cells {
            marks = marks.saturating_add(cells.iter().flatten().count());
        }
        marks
    }

    fn enter(&mut self, mark: Mark<Points>) -> Result<Seen, u8> {
        let full = self.count() >= self.places;
        let cell = self.cell_mut(mark.row, mark.col)?;
        if cell.is_some() {
            return Err(5);
        }
        if full {
            return Err(7);
        }
        *cell = Some(mark.grade.value);
        Ok(Done)
    }

    fn regrade(&mut self, mark: Mark<Points>) -> Result<Seen, u8> {
        let cell = self.cell_mut(mark.row, mark.col)?;
        if cell.is_none() {
            return Err(6);
        }
        *cell = Some(mark.grade.value);
        Ok(Done)
    }

    fn strike(&mut self, row: u16, col: u16) -> Result<Seen, u8> {
        self.cell_mut(row, col)?.take().map(Graded).ok_or(6)
    }

    fn look(&self, row: u16, col: u16) -> Result<Seen, u8> {
        Ok(self.cell(row, col)?.map_or(Vacant, Graded))
    }

    fn call(&mut self, call: Call<Points>) -> Result<Seen, u8> {
        match call {
            Call::Enter(mark) => self.enter(mark),
            Call::Regrade(mark) => self.regrade(mark),
            Call::Strike(row, col) => self.strike(row, col),
            Call::Look(row, col) => self.look(row, col),
        }
    }

    // Its marks, row by row.
    pub(crate) fn marks(&self, alloc: Global) -> Result<Vec<Mark<Points>>, AllocError> {
        let mut marks = Vec::new(alloc);
        for (row, cells) in (0..u16::MAX).zip(&self.cells) {
            for (col, cell) in (0..u16::MAX).zip(cells) {
                if let Some(value) = *cell {
                    marks.push(mark(row, col, value))?;
                }
            }
        }
        Ok(marks)
    }
}

// A plan and a table of its cells, which get the same calls.
#[derive(Drop)]
pub(crate) struct Twins<'a, const SIDE: usize> {
    pub(crate) plan: Plan<'a, Points>,
    pub(crate) table: Table<SIDE>,
}

impl<const SIDE: usize> Twins<'_, SIDE> {
    // A plan of the side, with no marks, and a blank table.
    pub(crate) fn blank(plan: Plan<'_, Points>) -> Twins<'_, SIDE> {
        let table = Table::blank(plan.places());
        Twins { plan, table }
    }

    // Gives both a call, and compares their answers.
    pub(crate) fn call(&mut self, rt: &impl Abort, call: Call<Points>, turn: u32) {
        assert_eq!(rt;
            in_numbers(self.plan.call(call)),
            self.table.call(call),
            "call {turn}"
        );
    }

    // Gives both so many calls.
    fn calls(&mut self, rt: &impl Abort, dice: &mut Dice, calls: u32) {
        for turn in 0..calls {
            self.call(rt, dice.call(), turn);
        }
    }

    // Compares every cell, and the number of marks.
    fn compare(&self, rt: &impl Abort) -> Result<(), PlanRefusal> {
        assert_eq!(rt; grades(&self.plan)?, self.table.cells);
        assert_eq!(rt; self.plan.marks(), self.table.count());
        Ok(())
    }
}

// How a call is drawn from the numbers. They look random and are the same in every run.
#[derive(Drop)]
pub(crate) struct Dice {
    numbers: Numbers,
}

impl Dice {
    pub(crate) fn new(seed: u64) -> Dice {
        Dice {
            numbers: Numbers::new(seed),
        }
    }

    pub(crate) fn next(&mut self) -> u16 {
        (self.numbers.next() % 65536) as u16
    }

    // A call on a cell of the plan, or now and then right beside it. Few grades, so that many are equal.
    fn call(&mut self) -> Call<Points> {
        let row = self.next() % 9;
        let col = self.next() % 9;
        let value = self.next() % 6;
        match self.next() % 8 {
            0 | 1 | 2 => enter(row, col, value),
            3 | 4 => regrade(row, col, value),
            5 | 6 => strike(row, col),
            _ => look(row, col),
        }
    }
}

fn agree_from(rt: &impl Abort, seed: u64) -> Result<(), PlanRefusal> {
    let mut places = [Place::vacant(points(0)); 20];
    let mut twins = Twins::<8>::blank(Plan::open(3, &mut places));
    let mut dice = Dice::new(seed);
    twins.calls(rt, &mut dice, 40);
    twins.compare(rt)?;
    twins.calls(rt, &mut dice, 960);
    twins.compare(rt)
}

#[test]
fn a_plan_answers_as_a_table_does(rt: HostRuntime) -> Result<(), Fail> {
    for seed in [1, 2026, 65535] {
        agree_from(&rt, seed)?;
    }
    Ok(())
}
