//! A draw from the plan of a session.
ghost use Rattle.std.specs.Prelude.{ℕ};
ghost use Rattle.boxtree.specs.Squares.{window_of};
ghost use Rattle.session.specs.Refusals.{drawn_or};
ghost use Rattle.session.specs.Replies.{Drew};

use crate::refusal::Refused;
use crate::session::Session;
use book::{DrawnLine, Reply, Unusable};
use boxtree::mark::Mark;
use boxtree::window::Window;
use draw::{Entry, draw};
use grade::points::Points;

impl Session<'_> {
    /// The answer to a draw of `k` marks of the window: its first line, or a refusal. The marks are listed in the first places of
    /// the list; more marks than it has places are refused as a line is that cannot be used.
    pub fn draw(
        &self,
        window: Window,
        k: u16,
        queue: &mut [Entry<Points>],
        list: &mut [Mark<Points>],
    ) -> Result<DrawnLine, Reply>
        ensures { Drew queue.old queue.new list.old list.new self.now (window_of window) k result }
    {
        self.drawn(window, k, queue, list).map_err(Reply::from)
    }

    // Draws, unless that is refused.
    fn drawn(
        &self,
        window: Window,
        k: u16,
        queue: &mut [Entry<Points>],
        list: &mut [Mark<Points>],
    ) -> Result<DrawnLine, Refused>
        ensures { Drew queue.old queue.new list.old list.new self.now (window_of window) k (drawn_or result) }
    {
        self.check_started()?;
        let asked = usize::from(k);
        if asked > list.len() {
            return Err(Refused::Line(Unusable));
        }
        let drawn = draw(&self.plan, window, queue, &mut list[0..asked])?;
        Ok(DrawnLine {
            listed: drawn.listed,
            opened: drawn.opened,
        })
    }
}
