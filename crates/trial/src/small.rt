//! A small plan of side 4: the marks (0, 3) of 9 points at its root, (2, 1) of 7, (0, 0) and (1, 1) of 5, (3, 3) of 1.
use crate::answers::Seen::*;
use crate::answers::*;
use grade::points::Points;
use plan::{Place, Plan};
use std::process::Abort;
use std::test::Fail;

pub(crate) fn enter_marks(rt: &impl Abort, plan: &mut Plan<'_, Points>) {
    expect(
        rt,
        plan,
        &[
            (enter(0, 0, 5), Ok(Done)),
            (enter(0, 3, 9), Ok(Done)),
            (enter(1, 1, 5), Ok(Done)),
            (enter(2, 1, 7), Ok(Done)),
            (enter(3, 3, 1), Ok(Done)),
        ],
    );
}

const GRADES: [[Option<u16>; 4]; 4] = [
    [Some(5), None, None, Some(9)],
    [None, Some(5), None, None],
    [None, Some(7), None, None],
    [None, None, None, Some(1)],
];

#[test]
fn the_small_plan_shows_its_marks(rt: HostRuntime) -> Result<(), Fail> {
    let mut places = [Place::vacant(points(0)); 5];
    let mut plan = Plan::open(2, &mut places);
    enter_marks(&rt, &mut plan);
    assert_eq!(rt; grades(&plan)?, GRADES);
    assert_eq!(rt; plan.marks(), 5);
    expect(
        &rt,
        &mut plan,
        &[
            (enter(1, 1, 10), Err(5)),
            (strike(0, 3), Ok(Graded(9))),
            (look(0, 3), Ok(Vacant)),
            (enter(0, 3, 2), Ok(Done)),
        ],
    );
    Ok(())
}

#[test]
fn the_root_is_struck_first_until_none_is_left(rt: HostRuntime) -> Result<(), Fail> {
    let mut places = [Place::vacant(points(0)); 5];
    let mut plan = Plan::open(2, &mut places);
    enter_marks(&rt, &mut plan);
    expect(
        &rt,
        &mut plan,
        &[
            (strike(0, 3), Ok(Graded(9))),
            (strike(2, 1), Ok(Graded(7))),
            (strike(0, 0), Ok(Graded(5))),
            (strike(1, 1), Ok(Graded(5))),
            (strike(3, 3), Ok(Graded(1))),
        ],
    );
    assert_eq!(rt; grades(&plan)?, [[None; 4]; 4]);
    assert_eq!(rt; plan.marks(), 0);
    Ok(())
}

#[test]
fn an_inner_mark_leaves_the_marks_below_it(rt: HostRuntime) {
    let mut places = [Place::vacant(points(0)); 5];
    let mut plan = Plan::open(2, &mut places);
    enter_marks(&rt, &mut plan);
    expect(
        &rt,
        &mut plan,
        &[
            (strike(0, 0), Ok(Graded(5))),
            (look(1, 1), Ok(Graded(5))),
            (strike(3, 3), Ok(Graded(1))),
            (look(2, 1), Ok(Graded(7))),
            (strike(0, 3), Ok(Graded(9))),
            (look(1, 1), Ok(Graded(5))),
            (look(2, 1), Ok(Graded(7))),
        ],
    );
    assert_eq!(rt; plan.marks(), 2);
}

#[test]
fn the_order_of_the_entries_does_not_show(rt: HostRuntime) -> Result<(), Fail> {
    let mut places = [Place::vacant(points(0)); 5];
    let mut plan = Plan::open(2, &mut places);
    enter_marks(&rt, &mut plan);
    expect(
        &rt,
        &mut plan,
        &[
            (strike(1, 1), Ok(Graded(5))),
            (strike(0, 3), Ok(Graded(9))),
            (strike(0, 0), Ok(Graded(5))),
            (strike(3, 3), Ok(Graded(1))),
            (strike(2, 1), Ok(Graded(7))),
            (enter(3, 3, 1), Ok(Done)),
            (enter(1, 1, 5), Ok(Done)),
            (enter(2, 1, 7), Ok(Done)),
            (enter(0, 0, 5), Ok(Done)),
            (enter(0, 3, 9), Ok(Done)),
        ],
    );
    assert_eq!(rt; grades(&plan)?, GRADES);
    assert_eq!(rt; plan.marks(), 5);
    Ok(())
}
