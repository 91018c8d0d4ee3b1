//! Calls and answers in plain numbers, and trials of calls on a plan, one after another.
use boxtree::mark::Mark;
use grade::Grade;
use grade::monument::{BadGrade, Monument};
use grade::points::Points;
use plan::{Answer, Call, Plan, PlanRefusal};
use refusals::Refusal;
use std::process::Abort;

// The number of a refusal, or none. Refusals by number: what the tests try is the numbers of the rules.
pub(crate) fn refusal<T: Drop, E: Refusal>(answer: Result<T, E>) -> Option<u8> {
    answer.err().map(E::number)
}

// What a call that is not refused is answered, a grade by its code.
#[derive(Clone, Copy, PartialEq, Eq, Debug)]
pub(crate) enum Seen {
    Done,
    Graded(u16),
    Vacant,
}

impl<G: Grade> From<Answer<G>> for Seen {
    fn from(answer: Answer<G>) -> Seen {
        match answer {
            Answer::Done => Seen::Done,
            Answer::Grade(grade) => Seen::Graded(grade.code()),
            Answer::Vacant => Seen::Vacant,
        }
    }
}

// What a call is answered, a refusal by its number.
pub(crate) fn in_numbers<G: Grade>(answer: Result<Answer<G>, PlanRefusal>) -> Result<Seen, u8> {
    answer.map(Seen::from).map_err(PlanRefusal::number)
}

pub(crate) fn points(value: u16) -> Points {
    Points { value }
}

pub(crate) fn mark(row: u16, col: u16, value: u16) -> Mark<Points> {
    Mark {
        row,
        col,
        grade: points(value),
    }
}

pub(crate) fn monument(
    row: u16,
    col: u16,
    class: u16,
    year: u16,
) -> Result<Mark<Monument>, BadGrade> {
    let grade = Monument::new(class, year)?;
    Ok(Mark { row, col, grade })
}

pub(crate) fn enter(row: u16, col: u16, value: u16) -> Call<Points> {
    Call::Enter(mark(row, col, value))
}

pub(crate) fn regrade(row: u16, col: u16, value: u16) -> Call<Points> {
    Call::Regrade(mark(row, col, value))
}

pub(crate) fn strike(row: u16, col: u16) -> Call<Points> {
    Call::Strike(row, col)
}

pub(crate) fn look(row: u16, col: u16) -> Call<Points> {
    Call::Look(row, col)
}

// A call, and what it should be answered.
pub(crate) type Step<G> = (Call<G>, Result<Seen, u8>);

// Carries out the calls and compares each answer with the one expected.
pub(crate) fn expect<G: Grade>(rt: &impl Abort, plan: &mut Plan<'_, G>, steps: &[Step<G>]) {
    for (i, (call, wanted)) in steps.iter().enumerate() {
        assert_eq!(rt; in_numbers(plan.call(*call)), *wanted, "step {i}");
    }
}

// The grades of the cells of a plan of a side, row by row, and none where a cell is vacant.
pub(crate) fn grades<const SIDE: usize>(
    plan: &Plan<'_, Points>,
) -> Result<[[Option<u16>; SIDE]; SIDE], PlanRefusal> {
    let mut grades = [[None; SIDE]; SIDE];
    // a plan is asked in `u16`, which `enumerate` does not give
    for (row, cells) in (0..u16::MAX).zip(grades.iter_mut()) {
        for (col, cell) in (0..u16::MAX).zip(cells.iter_mut()) {
            *cell = plan.look(row, col)?.map(|grade| grade.value);
        }
    }
    Ok(grades)
}
