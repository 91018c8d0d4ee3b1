//! Tallies of draws.
use crate::answers::refusal;
use tally::Tally;

#[test]
fn a_new_tally_has_no_draws(rt: HostRuntime) {
    let tally = Tally::new();
    assert_eq!(rt; tally.draws(), 0);
    assert_eq!(rt; tally.opened(), 0);
}

#[test]
fn a_note_past_the_edge_changes_nothing(rt: HostRuntime) {
    let mut tally = Tally::new();
    assert_eq!(rt; refusal(tally.note(u32::MAX)), None);
    assert_eq!(rt; refusal(tally.note(1)), Some(23));
    assert_eq!(rt; refusal(tally.note(u32::MAX)), Some(23));
    assert_eq!(rt; tally.draws(), 1);
    assert_eq!(rt; tally.opened(), u32::MAX);
    assert_eq!(rt; refusal(tally.note(0)), None);
    assert_eq!(rt; tally.draws(), 2);
}
