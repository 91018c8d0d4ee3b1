//! Queues of entries.
use crate::answers::*;
use boxtree::mark::Mark;
use boxtree::square::Square;
use draw::Entry;
use grade::Grade;
use queue::Queue;
use std::process::Abort;
use std::test::Fail;

// The entry of a mark, numbered by its rank.
fn ranked<G: Grade>(rank: u32, mark: Mark<G>) -> Entry<G> {
    let square = Square {
        level: 0,
        top: 0,
        left: 0,
    };
    Entry {
        number: rank,
        square,
        mark,
    }
}

// The numbers of three entries as a queue gives them, and what it gives then.
fn popped<G: Grade>(slots: &mut [Entry<G>], entries: &[Entry<G>; 3]) -> [Option<u32>; 4] {
    let mut queue = Queue::new(slots);
    for entry in entries {
        let _ = queue.push(*entry);
    }
    let mut numbers = [None; 4];
    for number in numbers.iter_mut() {
        *number = queue.pop().map(|entry| entry.number);
    }
    numbers
}

// Pushes three entries in each of the orders, and compares what a queue gives of them with their ranks, 0, 1 and 2.
fn come_by_rank<G: Grade>(rt: &impl Abort, slots: &mut [Entry<G>], orders: &[[Entry<G>; 3]]) {
    for entries in orders {
        assert_eq!(rt; popped(slots, entries), [Some(0), Some(1), Some(2), None]);
    }
}

#[test]
fn points_come_by_rank(rt: HostRuntime) {
    let mut slots = [Entry::vacant(points(0)); 3];
    let a = ranked(0, mark(3, 3, 9));
    let b = ranked(1, mark(0, 1, 5));
    let c = ranked(2, mark(1, 0, 5));
    come_by_rank(&rt, &mut slots, &[[a, b, c], [c, b, a], [b, c, a]]);
}

#[test]
fn monuments_come_by_rank(rt: HostRuntime) -> Result<(), Fail> {
    let a = ranked(0, monument(3, 3, 1, 1700)?);
    let b = ranked(1, monument(0, 1, 2, 2004)?);
    let c = ranked(2, monument(1, 0, 2, 2004)?);
    let mut slots = [c; 3];
    come_by_rank(&rt, &mut slots, &[[a, b, c], [c, b, a], [b, c, a]]);
    Ok(())
}
