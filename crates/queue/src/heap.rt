//! Moves within a heap that fills its slice: the entries below place k are at 2k + 1 and 2k + 2. A path of the heap is walked by
//! its places, which no iterator gives.
ghost use Rattle.std.specs.Prelude.{◌≡◌, ◌+◌, ◌*◌, ◌<◌, length, slice_index_or};
ghost use Rattle.std.specs.List.Sorted.{IsPermutation};
ghost use Rattle.queue.specs.Heaps.{Heap, Rising, Sinking, Best, up};

use crate::ranked::Ranked;

// Moves the entry at `at` up past those that it outranks.
pub(crate) fn rise<E: Ranked>(heap: &mut [E], mut at: usize)
    requires within { at < length heap.old }
    requires rising { Rising E.over heap.old at (length heap.old) }
    ensures len { length heap.new ≡ length heap.old }
    ensures shuffled { IsPermutation heap.old heap.new }
    ensures heaped { Heap E.over heap.new (length heap.old) }
{
    while at > 0 {
        let above = (at - 1) / 2;
        if !heap[at].outranks(heap[above]) {
            return;
        }
        heap.swap(at, above);
        at = above;
    }
}

// The place below `at` whose entry none other there outranks.
fn best_below<E: Ranked>(heap: &[E], at: usize) -> usize
    requires { at * 2 + 1 < length heap.now }
    ensures within { (0 < result) × (result < length heap.now) × (up result ≡ at) }
    ensures best { Best E.over heap.now at result (length heap.now) }
{
    let left = at * 2 + 1;
    let right = left + 1;
    if right < heap.len() && heap[right].outranks(heap[left]) {
        right
    } else {
        left
    }
}

// Moves the entry at `at` down past those that outrank it.
pub(crate) fn settle<E: Ranked>(heap: &mut [E], mut at: usize)
    requires { Sinking E.over heap.old at (length heap.old) }
    ensures len { length heap.new ≡ length heap.old }
    ensures shuffled { IsPermutation heap.old heap.new }
    ensures heaped { Heap E.over heap.new (length heap.old) }
{
    while at < heap.len() / 2 {
        let below = best_below(heap, at);
        if !heap[below].outranks(heap[at]) {
            return;
        }
        heap.swap(below, at);
        at = below;
    }
}
