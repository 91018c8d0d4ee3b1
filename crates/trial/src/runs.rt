//! Runs of calls.
use crate::answers::Seen::*;
use crate::answers::*;
use grade::points::Points;
use plan::run::run;
use plan::{Answer, Call, Place, Plan, PlanRefusal, carry_out};
use std::test::Fail;

// Eight calls: three marks entered, of which one is refused, then the others.
fn eight_calls() -> [Call<Points>; 8] {
    [
        enter(0, 0, 5),
        enter(0, 0, 6),
        enter(1, 1, 7),
        regrade(0, 0, 8),
        strike(1, 1),
        look(0, 0),
        look(1, 1),
        strike(2, 2),
    ]
}

#[test]
fn a_run_answers_every_call(rt: HostRuntime) {
    let mut places = [Place::vacant(points(0)); 2];
    let mut plan = Plan::open(1, &mut places);
    let mut answers = [Err(PlanRefusal::Side); 10];
    assert_eq!(rt; carry_out(&mut plan, &eight_calls(), &mut answers), 8);
    let wanted = [
        Ok(Done),
        Err(5),
        Ok(Done),
        Ok(Done),
        Ok(Graded(7)),
        Ok(Graded(8)),
        Ok(Vacant),
        Err(4),
        Err(1),
        Err(1),
    ];
    assert_eq!(rt; answers.map(in_numbers), wanted);
    assert_eq!(rt; plan.marks(), 1);
}

#[test]
fn a_run_ends_where_the_answers_do(rt: HostRuntime) {
    let mut places = [Place::vacant(points(0)); 2];
    let mut plan = Plan::open(1, &mut places);
    let mut answers = [Ok(Answer::Vacant); 3];
    assert_eq!(rt; carry_out(&mut plan, &eight_calls(), &mut answers), 3);
    assert_eq!(rt; in_numbers(answers[2]), Ok(Done));
    expect(
        &rt,
        &mut plan,
        &[(look(0, 0), Ok(Graded(5))), (look(1, 1), Ok(Graded(7)))],
    );
}

#[test]
fn a_run_opens_its_plan(rt: HostRuntime) -> Result<(), Fail> {
    let mut places = [Place::vacant(points(0)); 2];
    let mut answers = [Ok(Answer::Vacant); 8];
    let plan = run(1, &mut places, &eight_calls(), &mut answers)?;
    assert_eq!(rt; plan.marks(), 1);
    assert_eq!(rt; in_numbers(answers[4]), Ok(Graded(7)));
    Ok(())
}

#[test]
fn a_run_of_level_11_is_refused(rt: HostRuntime) {
    let mut places = [Place::vacant(points(0)); 2];
    let mut answers = [Ok(Answer::Vacant); 8];
    let opened = run(11, &mut places, &eight_calls(), &mut answers);
    assert_eq!(rt; refusal(opened), Some(1));
    assert_eq!(rt; in_numbers(answers[0]), Ok(Vacant));
}
