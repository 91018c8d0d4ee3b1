//! Places, and the opening of a plan over them.
use crate::answers::refusal;
use grade::points::Points;
use plan::{Place, check_open};
use std::mem::size_of;

#[test]
fn a_place_of_points_takes_14_bytes_at_most(rt: HostRuntime) {
    assert!(rt; size_of::<Place<Points>>() <= 14);
}

#[test]
fn a_level_above_10_is_refused(rt: HostRuntime) {
    assert_eq!(rt; refusal(check_open(0, 1)), None);
    assert_eq!(rt; refusal(check_open(10, 1)), None);
    assert_eq!(rt; refusal(check_open(11, 1)), Some(1));
}

#[test]
fn no_places_and_too_many_are_refused(rt: HostRuntime) {
    assert_eq!(rt; refusal(check_open(2, 0)), Some(2));
    assert_eq!(rt; refusal(check_open(2, 1)), None);
    assert_eq!(rt; refusal(check_open(2, 65535)), None);
    assert_eq!(rt; refusal(check_open(2, 65536)), Some(2));
}

#[test]
fn the_level_is_tested_before_the_places(rt: HostRuntime) {
    assert_eq!(rt; refusal(check_open(11, 0)), Some(1));
    assert_eq!(rt; refusal(check_open(11, 65536)), Some(1));
}
