//! A queue over slots that its caller lends.
mod changes;
mod methods;

use crate::ranked::Ranked;
use std::marker::Model;

/// Entries, to be given by rank. They stand in the first `len` slots as a heap: the entries below place k are at 2k + 1
/// and 2k + 2, and none outranks the one above it. The other slots hold nothing of the queue. A push or a pop goes along
/// one path of the heap, so it makes at most as many exchanges as the binary logarithm of `len`, the entry itself counted.
#[derive(Drop)]
pub struct Queue<'a, E: Ranked> {
    // Lent slots and their number in use, and no `Vec`: the library allocates nothing.
    slots: &'a mut [E],
    len: usize,
}

impl<'a, E: Ranked> Model for Queue<'a, E> {
    ghost use Rattle.std.specs.Prelude.{◌≤◌, length, take, drop};
    ghost use Rattle.queue.specs.Waiting.{Waiting};
    ghost use Rattle.queue.specs.Heaps.{Heap};

    ghost Value = { Waiting E };

    ghost view = { λ q. record { held = take q.len q.slots.now; spare = drop q.len q.slots.now } };

    ghost invariant = { λ q. (q.len ≤ length q.slots.now) × Heap E.over q.slots.now q.len };
}
