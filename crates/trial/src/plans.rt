//! Plans: which calls are refused, and what a call changes.
use crate::answers::Seen::*;
use crate::answers::*;
use grade::monument::Monument;
use plan::{Call, Place, Plan, check_open};
use std::test::Fail;

#[test]
fn a_full_plan_takes_a_mark_after_a_strike(rt: HostRuntime) {
    let mut places = [Place::vacant(points(0)); 5];
    let mut plan = Plan::open(2, &mut places);
    assert_eq!(rt; plan.marks(), 0);
    expect(
        &rt,
        &mut plan,
        &[
            (enter(0, 0, 5), Ok(Done)),
            (enter(3, 1, 6), Ok(Done)),
            (enter(0, 2, 5), Ok(Done)),
            (enter(2, 3, 8), Ok(Done)),
            (enter(1, 0, 5), Ok(Done)),
            (enter(1, 1, 5), Err(7)),
            (strike(0, 2), Ok(Graded(5))),
            (enter(1, 1, 4), Ok(Done)),
            (look(1, 1), Ok(Graded(4))),
            (enter(0, 2, 5), Err(7)),
        ],
    );
    assert_eq!(rt; plan.places(), 5);
    assert_eq!(rt; plan.marks(), 5);
}

#[test]
fn the_first_refusal_that_fits_is_answered(rt: HostRuntime) {
    let mut places = [Place::vacant(points(0)); 1];
    let mut plan = Plan::open(2, &mut places);
    expect(
        &rt,
        &mut plan,
        &[
            (enter(1, 1, 5), Ok(Done)),
            (enter(1, 1, 6), Err(5)),
            (enter(4, 0, 6), Err(4)),
            (enter(0, 4, 6), Err(4)),
            (enter(0, 0, 6), Err(7)),
        ],
    );
}

#[test]
fn a_cell_off_the_plan_is_refused(rt: HostRuntime) {
    let mut places = [Place::vacant(points(0)); 1];
    let mut plan = Plan::open(2, &mut places);
    expect(
        &rt,
        &mut plan,
        &[
            (enter(65535, 65535, 1), Err(4)),
            (regrade(4, 3, 1), Err(4)),
            (strike(3, 4), Err(4)),
            (look(4, 4), Err(4)),
            (look(3, 3), Ok(Vacant)),
        ],
    );
}

#[test]
fn a_vacant_cell_is_neither_regraded_nor_struck(rt: HostRuntime) {
    let mut places = [Place::vacant(points(0)); 2];
    let mut plan = Plan::open(2, &mut places);
    expect(
        &rt,
        &mut plan,
        &[
            (regrade(0, 0, 1), Err(6)),
            (strike(0, 0), Err(6)),
            (enter(0, 0, 1), Ok(Done)),
            (regrade(0, 1, 1), Err(6)),
            (strike(1, 0), Err(6)),
            (look(1, 0), Ok(Vacant)),
            (look(0, 0), Ok(Graded(1))),
        ],
    );
}

#[test]
fn a_refused_call_changes_nothing(rt: HostRuntime) -> Result<(), Fail> {
    let mut places = [Place::vacant(points(0)); 3];
    let mut plan = Plan::open(2, &mut places);
    let _ = plan.enter(mark(0, 0, 5));
    let _ = plan.enter(mark(1, 1, 5));
    let _ = plan.enter(mark(2, 1, 7));
    let before = grades::<4>(&plan)?;
    expect(
        &rt,
        &mut plan,
        &[
            (enter(0, 4, 9), Err(4)),
            (enter(1, 1, 9), Err(5)),
            (enter(3, 3, 9), Err(7)),
            (regrade(4, 0, 9), Err(4)),
            (regrade(3, 3, 9), Err(6)),
            (strike(4, 0), Err(4)),
            (strike(3, 3), Err(6)),
            (look(0, 4), Err(4)),
        ],
    );
    assert_eq!(rt; grades(&plan)?, before);
    assert_eq!(rt; plan.marks(), 3);
    Ok(())
}

#[test]
fn a_regraded_mark_has_its_new_grade(rt: HostRuntime) {
    let mut places = [Place::vacant(points(0)); 3];
    let mut plan = Plan::open(2, &mut places);
    expect(
        &rt,
        &mut plan,
        &[
            (enter(0, 0, 5), Ok(Done)),
            (enter(0, 1, 6), Ok(Done)),
            (enter(3, 3, 7), Ok(Done)),
            (regrade(0, 0, 65535), Ok(Done)),
            (look(0, 0), Ok(Graded(65535))),
            (regrade(0, 0, 0), Ok(Done)),
            (look(0, 0), Ok(Graded(0))),
            (regrade(3, 3, 7), Ok(Done)),
            (look(3, 3), Ok(Graded(7))),
            (look(0, 1), Ok(Graded(6))),
            (strike(0, 0), Ok(Graded(0))),
        ],
    );
    assert_eq!(rt; plan.marks(), 2);
}

#[test]
fn marks_of_one_grade_stay_apart(rt: HostRuntime) -> Result<(), Fail> {
    let mut places = [Place::vacant(points(0)); 16];
    let mut plan = Plan::open(2, &mut places);
    for cell in [9, 4, 15, 0, 3, 12, 6, 5, 10, 1, 14, 2, 8, 7, 11, 13] {
        expect(&rt, &mut plan, &[(enter(cell / 4, cell % 4, 3), Ok(Done))]);
    }
    assert_eq!(rt; grades(&plan)?, [[Some(3); 4]; 4]);
    expect(
        &rt,
        &mut plan,
        &[
            (strike(0, 0), Ok(Graded(3))),
            (strike(3, 3), Ok(Graded(3))),
            (look(0, 0), Ok(Vacant)),
            (look(0, 1), Ok(Graded(3))),
        ],
    );
    assert_eq!(rt; plan.marks(), 14);
    Ok(())
}

#[test]
fn a_plan_of_level_0_has_one_cell(rt: HostRuntime) {
    let mut places = [Place::vacant(points(0)); 1];
    let mut plan = Plan::open(0, &mut places);
    expect(
        &rt,
        &mut plan,
        &[
            (look(0, 0), Ok(Vacant)),
            (enter(0, 1, 2), Err(4)),
            (enter(0, 0, 2), Ok(Done)),
            (enter(0, 0, 3), Err(5)),
            (regrade(0, 0, 3), Ok(Done)),
            (look(1, 0), Err(4)),
            (strike(0, 0), Ok(Graded(3))),
            (look(0, 0), Ok(Vacant)),
        ],
    );
}

#[test]
fn a_plan_of_level_10_ends_at_1023(rt: HostRuntime) {
    let mut places = [Place::vacant(points(0)); 4];
    let mut plan = Plan::open(10, &mut places);
    expect(
        &rt,
        &mut plan,
        &[
            (enter(0, 0, 1), Ok(Done)),
            (enter(1023, 1023, 2), Ok(Done)),
            (enter(0, 1023, 3), Ok(Done)),
            (enter(1022, 1023, 1), Ok(Done)),
            (enter(1024, 0, 4), Err(4)),
            (enter(0, 1024, 4), Err(4)),
            (look(1023, 1024), Err(4)),
            (look(0, 0), Ok(Graded(1))),
            (look(1022, 1023), Ok(Graded(1))),
            (strike(1023, 1023), Ok(Graded(2))),
            (look(1022, 1023), Ok(Graded(1))),
            (look(0, 1023), Ok(Graded(3))),
        ],
    );
}

#[test]
fn a_plan_opened_again_has_no_marks(rt: HostRuntime) -> Result<(), Fail> {
    let mut places = [Place::vacant(points(0)); 2];
    let mut plan = Plan::open(2, &mut places);
    let _ = plan.enter(mark(3, 3, 5));
    check_open(1, plan.places())?;
    plan.reopen(1);
    expect(
        &rt,
        &mut plan,
        &[
            (look(3, 3), Err(4)),
            (look(1, 1), Ok(Vacant)),
            (enter(1, 1, 2), Ok(Done)),
        ],
    );
    assert_eq!(rt; plan.marks(), 1);
    Ok(())
}

#[test]
fn a_plan_of_monuments_answers_alike(rt: HostRuntime) -> Result<(), Fail> {
    let first = Monument::new(1, 1990)?;
    let mut places = [Place::vacant(first); 3];
    let mut plan = Plan::open(3, &mut places);
    expect(
        &rt,
        &mut plan,
        &[
            (Call::Enter(monument(7, 7, 2, 2004)?), Ok(Done)),
            (Call::Enter(monument(0, 7, 5, 1700)?), Ok(Done)),
            (Call::Enter(monument(7, 6, 1, 2099)?), Ok(Done)),
            (Call::Enter(monument(1, 1, 1, 2099)?), Err(7)),
            (Call::Look(7, 7), Ok(Graded(1328))),
            (Call::Regrade(monument(7, 7, 1, 1990)?), Ok(Done)),
            (Call::Look(7, 7), Ok(Graded(802))),
            (Call::Strike(7, 6), Ok(Graded(911))),
            (Call::Look(7, 6), Ok(Vacant)),
            (Call::Look(7, 7), Ok(Graded(802))),
            (Call::Look(0, 7), Ok(Graded(2560))),
        ],
    );
    Ok(())
}
