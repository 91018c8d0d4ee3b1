//! Draws beside a plain scan: the best marks by looking at every cell, and the boxes to open by walking the whole tree.
use crate::answers::*;
use crate::draws::*;
use crate::table::{Dice, Twins};
use boxtree::mark::Mark;
use boxtree::refusal::Absent;
use boxtree::tree::BoxTree;
use boxtree::window::Window;
use draw::{Entry, draw};
use grade::points::Points;
use plan::{Place, Plan};
use std::alloc::{AllocError, Global};
use std::cmp::Reverse;
use std::process::Abort;
use std::test::Fail;

// Which mark comes first: the one of the higher grade, and of one grade by rows and columns.
fn rank(mark: &Mark<Points>) -> (Reverse<u16>, u16, u16) {
    (Reverse(mark.grade.value), mark.row, mark.col)
}

fn inside(window: Window, mark: Mark<Points>) -> bool {
    (window.top..=window.bottom).contains(&mark.row)
        && (window.left..=window.right).contains(&mark.col)
}

// A box of the tree: its number, its mark, and its square by the first row and column and the side.
// The scan uses none of the library's squares, so that it is no copy of what it tries.
#[derive(Clone, Copy, PartialEq, Eq, Debug)]
struct Found {
    number: u32,
    mark: Mark<Points>,
    top: u16,
    left: u16,
    side: u16,
}

impl Found {
    fn new(
        tree: &Plan<'_, Points>,
        number: u32,
        top: u16,
        left: u16,
        side: u16,
    ) -> Result<Found, Absent> {
        let mark = tree.mark(number)?;
        Ok(Found {
            number,
            mark,
            top,
            left,
            side,
        })
    }

    fn touches(self, window: Window) -> bool {
        let end_row = self.top.wrapping_add(self.side);
        let end_col = self.left.wrapping_add(self.side);
        self.top <= window.bottom
            && window.top < end_row
            && self.left <= window.right
            && window.left < end_col
    }
}

// The boxes of a plan of side 16, those of a level after those of the level above.
fn walk(alloc: Global, tree: &Plan<'_, Points>) -> Result<Vec<Found>, Fail> {
    let mut boxes = Vec::new(alloc);
    if let Some(number) = tree.root() {
        boxes.push(Found::new(tree, number, 0, 0, 16)?)?;
    }
    // by an index, since boxes are added on the way
    for i in 0..usize::from(tree.ceiling()) {
        let Some(above) = boxes.get(i).copied() else {
            break;
        };
        let half = above.side / 2;
        let corners = [(0, 0), (0, half), (half, 0), (half, half)];
        for (q, (down, right)) in (0..4u8).zip(corners) {
            if let Some(number) = tree.child(above.number, q)? {
                let top = above.top.wrapping_add(down);
                let left = above.left.wrapping_add(right);
                boxes.push(Found::new(tree, number, top, left, half)?)?;
            }
        }
    }
    Ok(boxes)
}

// A plan beside a table of its cells, and the boxes of its tree.
#[derive(Drop)]
struct Scan<'a> {
    twins: Twins<'a, 16>,
    boxes: Vec<Found>,
}

impl Scan<'_> {
    // The best marks of the window, `k` of them at most.
    fn best(
        &self,
        alloc: Global,
        window: Window,
        k: usize,
    ) -> Result<Vec<Mark<Points>>, AllocError> {
        let mut marks = self.twins.table.marks(alloc)?;
        marks.retain(|mark| inside(window, *mark));
        marks.sort_unstable_by_key(rank);
        marks.truncate(k);
        Ok(marks)
    }

    // How many boxes touch the window, and have the last mark or one that comes before it; or touch it, if there is no last.
    fn opened(&self, window: Window, last: Option<&Mark<Points>>) -> usize {
        self.boxes
            .iter()
            .filter(|found| found.touches(window))
            .filter(|found| last.is_none_or(|last| rank(&found.mark) <= rank(last)))
            .count()
    }

    // Draws up to `k` marks, and compares the list and the counts with those of the scan. A list that is filled has a last mark.
    fn compare(
        &self,
        rt: &(impl Abort + AllocGlobal),
        window: Window,
        k: usize,
        turn: u32,
    ) -> Result<(), Fail> {
        let mut queue = [Entry::vacant(points(0)); 256];
        let mut list = vec![in rt.alloc(); mark(99, 99, 99); k]?;
        let drawn = draw(&self.twins.plan, window, &mut queue, list.as_mut_slice())?;
        let best = self.best(rt.alloc(), window, k)?;
        assert_eq!(rt; drawn.listed, best.len(), "draw {turn}");
        list.truncate(best.len());
        assert_eq!(rt; list, best, "draw {turn}");
        let last = best.last().filter(|_| best.len() == k);
        assert_eq!(rt;
            drawn.opened as usize,
            self.opened(window, last),
            "draw {turn}"
        );
        Ok(())
    }
}

// A window that is not turned round, now and then past the plan.
fn any_window(dice: &mut Dice) -> Window {
    let a = dice.next() % 18;
    let b = dice.next() % 18;
    let c = dice.next() % 18;
    let d = dice.next() % 18;
    window(a.min(b), c.min(d), a.max(b), c.max(d))
}

fn agree_from(rt: &(impl Abort + AllocGlobal), seed: u64, turns: u32) -> Result<(), Fail> {
    let mut places = [Place::vacant(points(0)); 256];
    let mut twins = Twins::blank(Plan::open(4, &mut places));
    let mut dice = Dice::new(seed);
    // few grades, so that many are equal
    for turn in 0..turns {
        let cell = dice.next() % 256;
        let grade = dice.next() % 6;
        twins.call(rt, enter(cell / 16, cell % 16, grade), turn);
    }
    let boxes = walk(rt.alloc(), &twins.plan)?;
    assert_eq!(rt; boxes.len(), twins.plan.marks());
    let scan = Scan { twins, boxes };
    for turn in 0..200u32 {
        let drawn = any_window(&mut dice);
        let k = 1 + usize::from(dice.next() % 16);
        scan.compare(rt, drawn, k, turn)?;
    }
    Ok(())
}

#[test]
fn a_draw_lists_and_opens_as_a_scan_does(rt: HostRuntime) -> Result<(), Fail> {
    agree_from(&rt, 4, 150)?;
    agree_from(&rt, 2026, 30)
}
