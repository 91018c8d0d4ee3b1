//! The calls that change a queue.
ghost use Rattle.std.specs.Prelude.{◌≡◌, ◌+◌, length, drop, is_some, is_ok, IfErr, Ok, if◌then◌else◌, nat_lt};
ghost use Rattle.queue.specs.Heaps.{Heap};
ghost use Rattle.queue.specs.Waiting.{Unfilled, Pushed, Popped, Fewer, room};

use crate::queue::Queue;
use crate::ranked::Ranked;
use crate::slots::{extract, insert};

impl<E: Ranked> Queue<'_, E> {
    /// Takes the entry in: one slot fewer is spare. Where no slot is spare it gives the entry back, and every slot is as
    /// it was.
    pub fn push(&mut self, entry: E) -> Result<(), E>
        ensures room { room self.new ≡ room self.old }
        ensures taken { is_ok result ≡ nat_lt (length self.old.held) (room self.old) }
        ensures back { IfErr result (λ e. (e ≡ entry) × (self.new ≡ self.old)) }
        ensures len { length self.new.held ≡ length self.old.held + (if is_ok result then 1 else 0) }
        ensures held { Pushed entry result self.old self.new }
        ensures fits { Unfilled self.old → Pushed entry (Ok tt) self.old self.new }
        ensures spare { self.new.spare ≡ drop (if is_ok result then 1 else 0) self.old.spare }
        ensures heap { Heap E.over self.new.held (length self.new.held) }
    {
        if self.len == self.slots.len() {
            return Err(entry);
        }
        insert(self.slots, self.len, entry);
        self.len += 1;
        Ok(())
    }

    /// Gives an entry that none it holds outranks, and holds it no more: one slot more is spare. Where it holds nothing
    /// it gives none, and every slot is as it was.
    pub fn pop(&mut self) -> Option<E>
        ensures room { room self.new ≡ room self.old }
        ensures len { Fewer result (length self.old.held) (length self.new.held) }
        ensures held { Popped E.over result self.old self.new }
        ensures spare { drop (if is_some result then 1 else 0) self.new.spare ≡ self.old.spare }
        ensures heap { Heap E.over self.new.held (length self.new.held) }
    {
        if self.len == 0 {
            return None;
        }
        let top = extract(self.slots, self.len);
        self.len -= 1;
        Some(top)
    }
}
