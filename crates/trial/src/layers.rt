//! Floors and shifts over a plan: what is drawn through them, and what they answer of a box.
use crate::answers::Seen::Done;
use crate::answers::*;
use crate::draws::*;
use crate::small::enter_marks;
use boxtree::tree::BoxTree;
use grade::monument::Monument;
use layer::floor::Floor;
use layer::pile::{Layer, Pile, check_pile};
use layer::refusal::PastEdge;
use layer::shift::{Shift, check_shift};
use plan::{Call, Place, Plan};
use refusals::Refusal;
use std::process::Abort;
use std::test::Fail;

fn shifted<T: BoxTree>(below: &T, rows: u16, cols: u16) -> Result<Shift<'_, T>, PastEdge> {
    check_shift(below, rows, cols)?;
    Ok(Shift::over(below, rows, cols))
}

// Draws one case through a floor over a shift by 10 rows and 20 columns, and through such a shift over the floor; and another
// through two shifts, together by as much.
fn through_layers<T: BoxTree>(
    rt: &(impl Abort + AllocGlobal),
    below: &T,
    least: T::G,
    lent: &mut Lent<'_, T::G>,
    floored: Case<'_>,
    moved: Case<'_>,
) -> Result<(), Fail> {
    let shift = shifted(below, 10, 20)?;
    lent.draws(rt, &Floor::over(&shift, least), floored)?;
    let floor = Floor::over(below, least);
    lent.draws(rt, &shifted(&floor, 10, 20)?, floored)?;
    let shift = shifted(below, 9, 2)?;
    lent.draws(rt, &shifted(&shift, 1, 18)?, moved)
}

// Draws the whole of a small plan, and then two cells with one mark in them, through layers. `moved` are its five marks, 10
// rows down and 20 columns to the right, and the last of them lies below the floor.
fn small_through_layers<T: BoxTree>(
    rt: &(impl Abort + AllocGlobal),
    below: &T,
    least: T::G,
    lent: &mut Lent<'_, T::G>,
    moved: [[u16; 3]; 5],
) -> Result<(), Fail> {
    let whole = window(10, 20, 13, 23);
    let moved = &moved[..];
    let floored = Case::new(whole, &moved[..4], 4);
    through_layers(rt, below, least, lent, floored, Case::new(whole, moved, 5))?;
    let part = Case::new(window(11, 21, 11, 22), &moved[3..4], 3);
    through_layers(rt, below, least, lent, part, part)
}

#[test]
fn points_are_drawn_through_layers(rt: HostRuntime) -> Result<(), Fail> {
    let mut places = [Place::vacant(points(0)); 5];
    let mut plan = Plan::open(2, &mut places);
    enter_marks(&rt, &mut plan);
    let mut arrays = Arrays::new(points(0), mark(9, 9, 9));
    let mut lent = arrays.lend();
    let moved = [
        [10, 23, 9],
        [12, 21, 7],
        [10, 20, 5],
        [11, 21, 5],
        [13, 23, 1],
    ];
    small_through_layers(&rt, &plan, points(5), &mut lent, moved)?;
    let kept = Case::new(window(0, 0, 3, 3), &[[0, 3, 9], [2, 1, 7]], 2);
    for (first, second) in [(5, 6), (6, 5)] {
        let floor = Floor::over(&plan, points(first));
        lent.draws(&rt, &Floor::over(&floor, points(second)), kept)?;
    }
    Ok(())
}

#[test]
fn monuments_are_drawn_through_layers(rt: HostRuntime) -> Result<(), Fail> {
    let least = Monument::new(3, 1851)?;
    let mut places = [Place::vacant(least); 5];
    let mut plan = Plan::open(2, &mut places);
    expect(
        &rt,
        &mut plan,
        &[
            (Call::Enter(monument(0, 0, 3, 1851)?), Ok(Done)),
            (Call::Enter(monument(0, 3, 1, 1990)?), Ok(Done)),
            (Call::Enter(monument(1, 1, 3, 1851)?), Ok(Done)),
            (Call::Enter(monument(2, 1, 2, 2004)?), Ok(Done)),
            (Call::Enter(monument(3, 3, 3, 1850)?), Ok(Done)),
        ],
    );
    let mut arrays = Arrays::new(least, monument(9, 9, 5, 1700)?);
    let mut lent = arrays.lend();
    let moved = [
        [10, 23, 802],
        [12, 21, 1328],
        [10, 20, 1687],
        [11, 21, 1687],
        [13, 23, 1686],
    ];
    small_through_layers(&rt, &plan, least, &mut lent, moved)
}

#[test]
fn points_are_drawn_through_a_pile(rt: HostRuntime) -> Result<(), Fail> {
    let mut places = [Place::vacant(points(0)); 5];
    let mut plan = Plan::open(2, &mut places);
    enter_marks(&rt, &mut plan);
    let mut arrays = Arrays::new(points(0), mark(9, 9, 9));
    let mut lent = arrays.lend();
    let layers = [
        Layer::Shift { rows: 9, cols: 2 },
        Layer::Floor(points(5)),
        Layer::Floor(points(3)),
        Layer::Shift { rows: 1, cols: 18 },
    ];
    check_pile(&plan, &layers)?;
    let pile = Pile::over(&plan, &layers);
    let moved = [[10, 23, 9], [12, 21, 7], [10, 20, 5], [11, 21, 5]];
    lent.draws(&rt, &pile, Case::new(window(10, 20, 13, 23), &moved, 4))?;
    let far = [
        Layer::Shift {
            rows: 65532,
            cols: 0,
        },
        Layer::Shift { rows: 1, cols: 0 },
    ];
    assert!(rt; check_pile(&plan, &far).is_err());
    Ok(())
}

#[test]
fn a_shift_ends_at_65535(rt: HostRuntime) -> Result<(), Fail> {
    let mut places = [Place::vacant(points(0)); 5];
    let mut plan = Plan::open(2, &mut places);
    enter_marks(&rt, &mut plan);
    assert_eq!(rt; refusal(check_shift(&plan, 65533, 0)), Some(18));
    assert_eq!(rt; refusal(check_shift(&plan, 0, 65533)), Some(18));
    assert_eq!(rt; refusal(check_shift(&plan, 65535, 65535)), Some(18));
    assert_eq!(rt; refusal(check_shift(&plan, 65532, 65532)), None);
    let mut arrays = Arrays::new(points(0), mark(9, 9, 9));
    let mut lent = arrays.lend();
    let moved = [
        [65532, 3, 9],
        [65534, 1, 7],
        [65532, 0, 5],
        [65533, 1, 5],
        [65535, 3, 1],
    ];
    let shift = shifted(&plan, 65532, 0)?;
    lent.draws(
        &rt,
        &shift,
        Case::new(window(0, 0, 65535, 65535), &moved, 5),
    )?;
    let last = window(65535, 0, 65535, 65535);
    lent.draws(&rt, &shift, Case::new(last, &moved[4..], 3))
}

// Compares the marks of boxes with those expected, a refusal by its number.
fn marks<T: BoxTree>(rt: &impl Abort, tree: &T, expected: &[(u32, Result<[u16; 3], u8>)]) {
    for (b, wanted) in expected {
        let mark = tree.mark(*b).map(as_numbers).map_err(Refusal::number);
        assert_eq!(rt; mark, *wanted, "box {b}");
    }
}

// Compares the boxes in quadrants of boxes with those expected, a refusal by its number.
fn children<T: BoxTree>(
    rt: &impl Abort,
    tree: &T,
    expected: &[(u32, u8, Result<Option<u32>, u8>)],
) {
    for (b, q, wanted) in expected {
        let child = tree.child(*b, *q).map_err(Refusal::number);
        assert_eq!(rt; child, *wanted, "box {b}, quadrant {q}");
    }
}

#[test]
fn a_plan_answers_of_its_boxes(rt: HostRuntime) {
    let mut places = [Place::vacant(points(0)); 7];
    let mut plan = Plan::open(2, &mut places);
    assert_eq!(rt; plan.root(), None);
    marks(&rt, &plan, &[(0, Err(22))]);
    children(&rt, &plan, &[(0, 0, Err(22))]);
    enter_marks(&rt, &mut plan);
    assert_eq!(rt; plan.root(), Some(0));
    assert_eq!(rt; plan.ceiling(), 5);
    marks(
        &rt,
        &plan,
        &[
            (0, Ok([0, 3, 9])),
            (2, Ok([1, 1, 5])),
            (5, Err(22)),
            (65536, Err(22)),
        ],
    );
    children(
        &rt,
        &plan,
        &[
            (0, 0, Ok(Some(1))),
            (0, 1, Ok(None)),
            (1, 3, Ok(Some(2))),
            (2, 0, Ok(None)),
            (0, 4, Err(22)),
            (5, 0, Err(22)),
        ],
    );
}

#[test]
fn a_floor_hides_boxes_and_keeps_their_numbers(rt: HostRuntime) {
    let mut places = [Place::vacant(points(0)); 7];
    let mut plan = Plan::open(2, &mut places);
    enter_marks(&rt, &mut plan);
    let floor = Floor::over(&plan, points(7));
    assert_eq!(rt; floor.root(), Some(0));
    assert_eq!(rt; floor.ceiling(), 5);
    marks(
        &rt,
        &floor,
        &[(3, Ok([2, 1, 7])), (1, Err(22)), (5, Err(22))],
    );
    children(
        &rt,
        &floor,
        &[
            (0, 2, Ok(Some(3))),
            (0, 0, Ok(None)),
            (1, 3, Err(22)),
            (0, 4, Err(22)),
        ],
    );
}
