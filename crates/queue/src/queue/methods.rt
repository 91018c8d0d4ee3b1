//! A new queue, and what is asked of one.
ghost use Rattle.std.specs.Prelude.{◌≡◌, ◌↔◌, IsTrue, [], length};
ghost use Rattle.queue.specs.Heaps.{Heap};
ghost use Rattle.queue.specs.Waiting.{room};

use crate::queue::Queue;
use crate::ranked::Ranked;

impl<'a, E: Ranked> Queue<'a, E> {
    /// A queue that holds nothing, with room for as many entries as there are slots. The slots stay as they were.
    pub fn new(slots: &'a mut [E]) -> Queue<'a, E>
        ensures empty { result.held ≡ [] }
        ensures room { room result ≡ length slots.old }
        ensures spare { result.spare ≡ slots.old }
        ensures heap { Heap E.over result.held (length result.held) }
    {
        Queue { slots, len: 0 }
    }

    /// How many entries it holds.
    pub fn len(&self) -> usize
        ensures { result ≡ length self.now.held }
    {
        self.len
    }

    /// Whether it holds nothing.
    pub fn is_empty(&self) -> bool
        ensures { IsTrue result ↔ (self.now.held ≡ []) }
    {
        self.len == 0
    }
}
