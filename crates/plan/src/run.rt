//! Calls as values, and runs of them.
ghost use Rattle.std.specs.Prelude.{◌≡◌, ℕ, min, length, slice_get};
ghost use Rattle.treap.specs.Ledgers.{answer, next};
ghost use Rattle.plan.specs.Plans.{ledger, Kept};
ghost use Rattle.plan.specs.Runs.{call_of, answer_of, Ran, Told};

use crate::place::Place;
use crate::plan::Plan;
use crate::plan::methods::check_open;
use crate::refusal::PlanRefusal;
use boxtree::mark::Mark;
use grade::Grade;

/// A call on a plan.
#[derive(Clone, Copy, PartialEq, Eq, Debug)]
pub enum Call<G> {
    Enter(Mark<G>),
    Regrade(Mark<G>),
    // a row and a column, as callers have them; inside, a `Cell`
    Strike(u16, u16),
    // as in `Strike`
    Look(u16, u16),
}

/// What a call that is not refused is answered: a mark is entered or regraded, a grade is struck or looked up, or the cell is
/// vacant.
#[derive(Clone, Copy, PartialEq, Eq, Debug)]
pub enum Answer<G> {
    Done,
    Grade(G),
    Vacant,
}

impl<G: Grade> Plan<'_, G> {
    /// Carries out one call.
    pub fn call(&mut self, call: Call<G>) -> Result<Answer<G>, PlanRefusal>
        ensures answered { answer_of G.Grade.coded result ≡ answer (ledger G.Grade.coded self.old) (call_of G.Grade.coded call) }
        ensures followed { ledger G.Grade.coded self.new ≡ next (ledger G.Grade.coded self.old) (call_of G.Grade.coded call) }
        ensures kept { Kept self.old self.new result }
    {
        match call {
            Call::Enter(mark) => self.enter(mark).map(|_| Answer::Done),
            Call::Regrade(mark) => self.regrade(mark).map(|_| Answer::Done),
            Call::Strike(row, col) => self.strike(row, col).map(Answer::Grade),
            Call::Look(row, col) => Ok(self.look(row, col)?.map_or(Answer::Vacant, Answer::Grade)),
        }
    }
}

// The call `i`, or none where there are fewer calls. A function of its own, whose contract alone tells a wrong call.
fn call_at<G: Copy>(calls: &[Call<G>], i: usize) -> Option<Call<G>>
    ensures { result ≡ slice_get calls.now i }
{
    calls.get(i).copied()
}

/// Carries out calls one after another, whichever of them are refused, and writes down what each is answered: as many calls
/// as there are answers to fill. Answers how many that are.
pub fn carry_out<G: Grade>(
    plan: &mut Plan<'_, G>,
    calls: &[Call<G>],
    answers: &mut [Result<Answer<G>, PlanRefusal>],
) -> usize
    ensures count { result ≡ min (length calls.now) (length answers.old) }
    ensures ran { Ran G.Grade.kind G.Grade.coded (ledger G.Grade.coded plan.old) calls.now answers.old answers.new plan.new }
{
    // asked by index: what `zip` with `iter_mut` writes is not known to a proof
    for (i, answer) in answers.iter_mut().enumerate() {
        let Some(call) = call_at(calls, i) else {
            break;
        };
        *answer = plan.call(call);
    }
    // what the plan shows is lawful, as its boxes tell
    let _ = plan.boxes();
    calls.len().min(answers.len())
}

/// Opens a plan without marks and carries out calls on it. However many calls there are and whichever are refused, answers
/// and marks are those of the ledger that is fed the side, the number of places and the calls alone.
pub fn run<'a, G: Grade>(
    h: u32,
    places: &'a mut [Place<G>],
    calls: &[Call<G>],
    answers: &mut [Result<Answer<G>, PlanRefusal>],
) -> Result<Plan<'a, G>, PlanRefusal>
    ensures { Told G.Grade.kind G.Grade.coded h (length places.old) calls.now answers.old answers.new result }
{
    check_open(h, places.len())?;
    let mut plan = Plan::open(h, places);
    carry_out(&mut plan, calls, answers);
    Ok(plan)
}
