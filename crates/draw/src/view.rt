//! A window over a box tree: whether a box touches it, and which of the boxes right below another do.
ghost use Rattle.std.specs.Prelude.{◌≡◌, ℕ, ◌+◌, ◌≤◌, true, is_some};
ghost use Rattle.std.specs.List.Sorted.{IsPermutation};
ghost use Rattle.treap.specs.Trees.{Lawful, find, quadrant, count};
ghost use Rattle.treap.specs.Draws.{Part};
ghost use Rattle.treap.specs.Searches.{tree as tree_of, child};
ghost use Rattle.queue.specs.Waiting.{Unfilled, room};
ghost use Rattle.boxtree.specs.Marks.{spot_of};
ghost use Rattle.boxtree.specs.Squares.{square_of, window_of};
ghost use Rattle.boxtree.specs.Quadrants.{quadrant_of};
ghost use Rattle.draw.specs.Nodes.{Upright, touching, seeing, node, noded, nodes, weight, Looked};
ghost use Rattle.draw.specs.Opened.{with, Opening};

use crate::entry::Entry;
use boxtree::mark::Mark;
use boxtree::quadrant::Quadrant;
use boxtree::square::Square;
use boxtree::tree::BoxTree;
use boxtree::window::Window;
use queue::{Queue, Ranked};
use std::marker::Model;

/// A tree, seen through a window that is not turned round.
#[derive(Drop)]
pub(crate) struct View<'a, T: BoxTree> {
    tree: &'a T,
    window: Window,
}

impl<'a, T: BoxTree> Model for View<'a, T> {
    ghost use Rattle.treap.specs.Trees.{Lawful};
    ghost use Rattle.boxtree.specs.Squares.{window_of};
    ghost use Rattle.draw.specs.Nodes.{Upright};
    ghost use Rattle.draw.specs.Scenes.{Scene};

    ghost Value = { Scene T };

    ghost view = { λ v. record { tree = v.tree.now; window = window_of v.window } };

    ghost invariant = { λ v. Upright (window_of v.window) × Lawful T.G.Grade.kind (T.BoxTree.shown v.tree.now) };
}

impl<'a, T: BoxTree> View<'a, T> {
    pub(crate) fn new(tree: &'a T, window: Window) -> View<'a, T>
        requires upright { Upright (window_of window) }
        requires lawful { Lawful T.G.Grade.kind (T.BoxTree.shown tree.now) }
        ensures tree { result.tree ≡ tree.now }
        ensures window { result.window ≡ window_of window }
    {
        View { tree, window }
    }

    // Whether the square and the window share a cell.
    fn touches(&self, square: Square) -> bool
        requires { square.level ≤ 16 }
        ensures { result ≡ touching (square_of square) self.now.window }
    {
        let side = 1u32 << square.level;
        let top = u32::from(square.top);
        let left = u32::from(square.left);
        !(top > u32::from(self.window.bottom) || top + side <= u32::from(self.window.top))
            && left <= u32::from(self.window.right)
            && u32::from(self.window.left) < left + side
    }

    /// Whether the mark lies in the window.
    pub(crate) fn sees(&self, mark: Mark<T::G>) -> bool
        ensures { result ≡ seeing self.now.window (spot_of T.G.Grade.coded mark) }
    {
        let Window {
            top,
            left,
            bottom,
            right,
        } = self.window;
        (top..=bottom).contains(&mark.row) && (left..=right).contains(&mark.col)
    }

    // The box as an entry, if its square and the window share a cell.
    fn look(&self, number: u32, square: Square) -> Option<Entry<T::G>>
        requires { square.level ≤ 16 }
        ensures { Looked self.now.window (square_of square) (find number (T.BoxTree.shown self.now.tree).tree) (noded T.G.Grade.coded (T.BoxTree.shown self.now.tree).tree result) }
    {
        if !self.touches(square) {
            return None;
        }
        let mark = self.tree.mark(number).ok()?;
        Some(Entry {
            number,
            square,
            mark,
        })
    }

    /// The root as an entry, if there is one and it touches the window.
    pub(crate) fn root(&self) -> Option<Entry<T::G>>
        ensures looked { Looked self.now.window (T.BoxTree.shown self.now.tree).square (T.BoxTree.shown self.now.tree).tree (noded T.G.Grade.coded (T.BoxTree.shown self.now.tree).tree result) }
        ensures lawful { Lawful T.G.Grade.kind (T.BoxTree.shown self.now.tree) }
    {
        self.look(self.tree.root()?, self.tree.square())
    }

    // The child in quadrant `q` of an entry's box, if there is one and it touches the window.
    fn child(&self, entry: Entry<T::G>, q: Quadrant) -> Option<Entry<T::G>>
        requires { Part (T.BoxTree.shown self.now.tree).square (T.BoxTree.shown self.now.tree).tree (square_of entry.square) (tree_of (node T.G.Grade.coded (T.BoxTree.shown self.now.tree).tree entry)) }
        ensures { Looked self.now.window (quadrant (quadrant_of q) (square_of entry.square)) (child (node T.G.Grade.coded (T.BoxTree.shown self.now.tree).tree entry) (quadrant_of q)) (noded T.G.Grade.coded (T.BoxTree.shown self.now.tree).tree result) }
    {
        let number = self.tree.child(entry.number, u8::from(q)).ok()??;
        self.look(number, entry.square.part(q))
    }

    // Puts the boxes in the first `n` quadrants of the entry's box that touch the window into the queue.
    fn open_first(&self, top: Entry<T::G>, waiting: &mut Queue<Entry<T::G>>, n: usize)
        requires part { Part (T.BoxTree.shown self.now.tree).square (T.BoxTree.shown self.now.tree).tree (square_of top.square) (tree_of (node T.G.Grade.coded (T.BoxTree.shown self.now.tree).tree top)) }
        requires quadrants { n ≤ 4 }
        requires place { count (tree_of (node T.G.Grade.coded (T.BoxTree.shown self.now.tree).tree top)) + weight (nodes T.G.Grade.coded (T.BoxTree.shown self.now.tree).tree waiting.old.held) ≤ room waiting.old }
        ensures room { room waiting.new ≡ room waiting.old }
        ensures held { Opening self.now.window (node T.G.Grade.coded (T.BoxTree.shown self.now.tree).tree top) n (nodes T.G.Grade.coded (T.BoxTree.shown self.now.tree).tree waiting.old.held) (nodes T.G.Grade.coded (T.BoxTree.shown self.now.tree).tree waiting.new.held) }
    {
        for q in &Quadrant::ALL[..n] {
            put(waiting, self.child(top, *q));
        }
    }

    /// Puts the boxes right below the entry's that touch the window into the queue.
    pub(crate) fn open(&self, top: Entry<T::G>, waiting: &mut Queue<Entry<T::G>>)
        requires part { Part (T.BoxTree.shown self.now.tree).square (T.BoxTree.shown self.now.tree).tree (square_of top.square) (tree_of (node T.G.Grade.coded (T.BoxTree.shown self.now.tree).tree top)) }
        requires place { count (tree_of (node T.G.Grade.coded (T.BoxTree.shown self.now.tree).tree top)) + weight (nodes T.G.Grade.coded (T.BoxTree.shown self.now.tree).tree waiting.old.held) ≤ room waiting.old }
        ensures room { room waiting.new ≡ room waiting.old }
        ensures held { Opening self.now.window (node T.G.Grade.coded (T.BoxTree.shown self.now.tree).tree top) 4 (nodes T.G.Grade.coded (T.BoxTree.shown self.now.tree).tree waiting.old.held) (nodes T.G.Grade.coded (T.BoxTree.shown self.now.tree).tree waiting.new.held) }
    {
        self.open_first(top, waiting, 4);
    }
}

// Puts the entry, if there is one, into the queue, which has room for it.
pub(crate) fn put<E: Ranked>(waiting: &mut Queue<E>, found: Option<E>)
    requires { is_some found ≡ true → Unfilled waiting.old }
    ensures room { room waiting.new ≡ room waiting.old }
    ensures held { IsPermutation (with found waiting.old.held) waiting.new.held }
{
    if let Some(entry) = found {
        let _ = waiting.push(entry);
    }
}
