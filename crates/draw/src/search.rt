//! The best marks of a window.
ghost use Rattle.std.specs.Prelude.{◌≡◌, ℕ, ◌<◌, ◌≤◌, [], map, length, take, drop, ◌==◌};
ghost use Rattle.treap.specs.Draws.{Draws};
ghost use Rattle.queue.specs.Waiting.{room};
ghost use Rattle.boxtree.specs.Marks.{spot_of};
ghost use Rattle.boxtree.specs.Squares.{window_of};
ghost use Rattle.draw.specs.Opened.{Enlisted};
ghost use Rattle.draw.specs.Answers.{Answered};

use crate::drawn::Drawn;
use crate::entry::Entry;
use crate::refusal::DrawRefusal;
use crate::view::{View, put};
use boxtree::mark::Mark;
use boxtree::tree::BoxTree;
use boxtree::window::Window;
use grade::Grade;
use queue::Queue;

// Lists the mark in the next place if it lies in the window, and answers how many are listed. The list is lent and stays the
// caller's, who is told the number, so that no struct keeps the two.
fn enlist<T: BoxTree>(
    view: &View<'_, T>,
    mark: Mark<T::G>,
    list: &mut [Mark<T::G>],
    listed: usize,
) -> usize
    requires { listed < length list.old }
    ensures { Enlisted T.G.Grade.coded view.now.window mark listed list.old list.new result }
{
    if !view.sees(mark) {
        return listed;
    }
    list[listed] = mark;
    listed + 1
}

// Whether every place of the list is filled.
fn full<G: Grade>(list: &[Mark<G>], listed: usize) -> bool
    ensures { result ≡ (listed == length list.now) }
{
    listed == list.len()
}

// The search, with a queue that holds nothing and has room for every box.
fn search<T: BoxTree>(
    view: &View<'_, T>,
    waiting: &mut Queue<Entry<T::G>>,
    list: &mut [Mark<T::G>],
) -> Drawn
    requires small { (T.BoxTree.shown view.now.tree).ceiling ≤ 65535 }
    requires empty { waiting.old.held ≡ [] }
    requires room { (T.BoxTree.shown view.now.tree).ceiling ≤ room waiting.old }
    requires places { 0 < length list.old }
    ensures draws { Draws T.G.Grade.kind (T.BoxTree.shown view.now.tree).square (T.BoxTree.shown view.now.tree).tree view.now.window (length list.old) (map (spot_of T.G.Grade.coded) (take result.listed list.new)) result.opened }
    ensures within { result.listed ≤ length list.old }
    ensures size { length list.new ≡ length list.old }
    ensures rest { drop result.listed list.new ≡ drop result.listed list.old }
{
    put(waiting, view.root());
    let mut listed = 0;
    let mut opened = 0;
    while let Some(top) = waiting.pop() {
        opened += 1;
        listed = enlist(view, top.mark, list, listed);
        if full(list, listed) {
            return Drawn { listed, opened };
        }
        view.open(top, waiting);
    }
    Drawn { listed, opened }
}

/// Lists the best marks of the window that the tree shows, the best first, as many as the list has places. List places
/// beyond the listed keep what stands in them.
///
/// The queue is lent for the work and needs as many places as the tree's ceiling; what stands in it afterwards is of no
/// use. No box is opened twice, and only boxes that touch the window come into the queue.
pub fn draw<T: BoxTree>(
    tree: &T,
    window: Window,
    queue: &mut [Entry<T::G>],
    list: &mut [Mark<T::G>],
) -> Result<Drawn, DrawRefusal>
    ensures { Answered T.G.Grade.kind T.G.Grade.coded (T.BoxTree.shown tree.now) (window_of window) queue.old queue.new list.old list.new result }
{
    if window.top > window.bottom || window.left > window.right {
        return Err(DrawRefusal::Window);
    }
    if list.is_empty() {
        return Err(DrawRefusal::List);
    }
    if queue.len() < usize::from(tree.ceiling()) {
        return Err(DrawRefusal::Queue);
    }
    let mut waiting = Queue::new(queue);
    Ok(search(&View::new(tree, window), &mut waiting, list))
}
