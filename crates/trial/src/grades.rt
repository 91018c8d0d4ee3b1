//! Grades: monuments and points.
use crate::answers::{points, refusal};
use grade::monument::Monument;
use grade::points::Points;
use grade::{Grade, read_back, step_back};
use std::test::Fail;

// The class and the year of the monument that has a code.
fn class_and_year(code: u16) -> Option<(u16, u16)> {
    Monument::from_code(code).map(|m| (m.class(), m.year()))
}

#[test]
fn a_class_out_of_range_is_refused(rt: HostRuntime) {
    for class in 1..6 {
        assert_eq!(rt; refusal(Monument::new(class, 1900)), None);
    }
    assert_eq!(rt; refusal(Monument::new(0, 1900)), Some(3));
    assert_eq!(rt; refusal(Monument::new(6, 1900)), Some(3));
}

#[test]
fn a_year_out_of_range_is_refused(rt: HostRuntime) {
    assert_eq!(rt; refusal(Monument::new(1, 1699)), Some(3));
    assert_eq!(rt; refusal(Monument::new(1, 1700)), None);
    assert_eq!(rt; refusal(Monument::new(5, 2099)), None);
    assert_eq!(rt; refusal(Monument::new(5, 2100)), Some(3));
}

#[test]
fn a_monument_is_read_from_its_code(rt: HostRuntime) -> Result<(), Fail> {
    assert_eq!(rt; Monument::new(2, 2004)?.code(), 1328);
    assert_eq!(rt; class_and_year(1328), Some((2, 2004)));
    assert_eq!(rt; class_and_year(0), None);
    assert_eq!(rt; class_and_year(511), None);
    assert_eq!(rt; class_and_year(512), Some((1, 1700)));
    assert_eq!(rt; class_and_year(911), Some((1, 2099)));
    assert_eq!(rt; class_and_year(912), None);
    assert_eq!(rt; class_and_year(2959), Some((5, 2099)));
    assert_eq!(rt; class_and_year(3071), None);
    assert_eq!(rt; class_and_year(3072), None);
    Ok(())
}

// The code of the grade to which a step leads from the monument of a class and a year.
fn back_code(class: u16, year: u16, by: u16) -> Option<u16> {
    let from = Monument::new(class, year).ok()?;
    from.back(by).map(Grade::code)
}

#[test]
fn a_step_leads_down_to_the_other_monument(rt: HostRuntime) -> Result<(), Fail> {
    let upper = Monument::new(1, 1990)?;
    let lower = Monument::new(2, 2004)?;
    assert_eq!(rt; upper.step(lower), Some(816));
    assert_eq!(rt; lower.step(upper), None);
    assert_eq!(rt; back_code(1, 1990, 816), Some(1328));
    assert_eq!(rt; back_code(1, 1990, 290), Some(802));
    assert_eq!(rt; back_code(1, 1990, 291), None);
    assert_eq!(rt; back_code(1, 1990, 2560), None);
    Ok(())
}

#[test]
fn the_lower_class_and_then_the_later_year_stand_above(rt: HostRuntime) -> Result<(), Fail> {
    let first = Monument::new(1, 1700)?;
    let second = Monument::new(2, 2099)?;
    let third = Monument::new(2, 2098)?;
    assert!(rt; first.above(second));
    assert!(rt; !second.above(first));
    assert!(rt; second.above(third));
    assert!(rt; !third.above(second));
    assert!(rt; second.above(second));
    Ok(())
}

#[test]
fn monuments_are_equal_by_class_and_year(rt: HostRuntime) -> Result<(), Fail> {
    let made = Monument::new(3, 1851)?;
    let read = Monument::from_code(1687).ok_or("no grade")?;
    let other = Monument::new(3, 1852)?;
    assert!(rt; made == read);
    assert!(rt; !(made == other));
    Ok(())
}

#[test]
fn each_kind_has_its_number(rt: HostRuntime) {
    assert_eq!(rt; Points::kind_number(), 1);
    assert_eq!(rt; Monument::kind_number(), 2);
}

#[test]
fn the_larger_points_stand_above(rt: HostRuntime) {
    assert!(rt; points(65535).above(points(0)));
    assert!(rt; points(7).above(points(7)));
    assert!(rt; !points(7).above(points(8)));
    assert_eq!(rt; points(0).code(), 0);
    assert_eq!(rt; points(65535).code(), 65535);
    assert_eq!(rt; Points::from_code(0), Some(points(0)));
    assert_eq!(rt; Points::from_code(65535), Some(points(65535)));
}

#[test]
fn points_step_by_their_difference(rt: HostRuntime) {
    assert_eq!(rt; points(65535).step(points(0)), Some(65535));
    assert_eq!(rt; points(7).step(points(7)), Some(0));
    assert_eq!(rt; points(7).step(points(8)), None);
    assert_eq!(rt; points(65535).back(65535), Some(points(0)));
    assert_eq!(rt; points(7).back(0), Some(points(7)));
    assert_eq!(rt; points(7).back(8), None);
}

#[test]
fn a_grade_is_read_back(rt: HostRuntime) {
    assert_eq!(rt; read_back(points(9)), Some(points(9)));
    assert_eq!(rt; step_back(points(9), points(4)), Some(points(4)));
    assert_eq!(rt; step_back(points(4), points(9)), None);
}
