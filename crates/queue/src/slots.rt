//! The heap that stands in the first `len` of some slots: an entry comes in, or the top goes out. Functions of the two fields and no
//! methods: they run while the queue's invariant is open.
ghost use Rattle.std.specs.Prelude.{◌≡◌, ◌+◌, ◌-◌, ◌<◌, ◌≤◌, ◌∷◌, length, take, drop};
ghost use Rattle.std.specs.List.Sorted.{IsPermutation};
ghost use Rattle.queue.specs.Heaps.{Heap};
ghost use Rattle.queue.specs.Ranks.{Top};

use crate::heap::{rise, settle};
use crate::ranked::Ranked;

// Puts `entry` among the first `len`.
pub(crate) fn insert<E: Ranked>(slots: &mut [E], len: usize, entry: E)
    requires room { len < length slots.old }
    requires heap { Heap E.over slots.old len }
    ensures room { length slots.new ≡ length slots.old }
    ensures held { IsPermutation (entry ∷ take len slots.old) (take (len + 1) slots.new) }
    ensures heap { Heap E.over slots.new (len + 1) }
    ensures spare { drop (len + 1) slots.new ≡ drop 1 (drop len slots.old) }
{
    slots[len] = entry;
    rise(&mut slots[..=len], len);
}

// Takes the top of the first `len` out; the last of them fills its place, and settles.
pub(crate) fn extract<E: Ranked>(slots: &mut [E], len: usize) -> E
    requires some { (0 < len) × (len ≤ length slots.old) }
    requires heap { Heap E.over slots.old len }
    ensures room { length slots.new ≡ length slots.old }
    ensures top { Top E.over result (take len slots.old) }
    ensures held { IsPermutation (take len slots.old) (result ∷ take (len - 1) slots.new) }
    ensures heap { Heap E.over slots.new (len - 1) }
    ensures spare { drop 1 (drop (len - 1) slots.new) ≡ drop len slots.old }
{
    let last = len - 1;
    let top = slots[0];
    slots[0] = slots[last];
    settle(&mut slots[..last], 0);
    top
}
