//! Draws from a plan: what is listed, how many boxes are opened, and which draws are refused.
use crate::answers::*;
use crate::small::enter_marks;
use boxtree::mark::Mark;
use boxtree::tree::BoxTree;
use boxtree::window::Window;
use draw::{Entry, draw};
use grade::Grade;
use grade::points::Points;
use plan::{Place, Plan};
use std::alloc::{AllocError, Global};
use std::process::Abort;
use std::test::Fail;

pub(crate) fn window(top: u16, left: u16, bottom: u16, right: u16) -> Window {
    Window {
        top,
        left,
        bottom,
        right,
    }
}

// A mark in plain numbers: its row, its column and the code of its grade.
pub(crate) fn as_numbers<G: Grade>(mark: Mark<G>) -> [u16; 3] {
    [mark.row, mark.col, mark.grade.code()]
}

// A window, and what a draw of it should give: the marks that are listed, and how many boxes are opened.
#[derive(Clone, Copy, PartialEq, Eq, Debug)]
pub(crate) struct Case<'a> {
    window: Window,
    marks: &'a [[u16; 3]],
    opened: u32,
}

impl Case<'_> {
    pub(crate) fn new(window: Window, marks: &[[u16; 3]], opened: u32) -> Case<'_> {
        Case {
            window,
            marks,
            opened,
        }
    }
}

// What is lent to draws.
#[derive(Drop)]
pub(crate) struct Lent<'a, G: Grade> {
    queue: &'a mut [Entry<G>],
    list: &'a mut [Mark<G>],
}

impl<G: Grade> Lent<'_, G> {
    // What stands in the list.
    fn listed(&self, alloc: Global) -> Result<Vec<[u16; 3]>, AllocError> {
        self.list.iter().copied().map(as_numbers).collect(alloc)
    }

    // Draws from the tree, and compares the counts, the list and what stands beyond the listed with what is expected.
    pub(crate) fn draws<T: BoxTree<G = G>>(
        &mut self,
        rt: &(impl Abort + AllocGlobal),
        tree: &T,
        case: Case<'_>,
    ) -> Result<(), Fail> {
        let mut expected = self.listed(rt.alloc())?;
        for (place, mark) in expected.iter_mut().zip(case.marks) {
            *place = *mark;
        }
        let drawn = draw(tree, case.window, self.queue, self.list)?;
        assert_eq!(rt; drawn.listed, case.marks.len());
        assert_eq!(rt; drawn.opened, case.opened);
        assert_eq!(rt; self.listed(rt.alloc())?, expected);
        Ok(())
    }
}

// A queue and a list of a test.
#[derive(Drop)]
pub(crate) struct Arrays<G: Grade> {
    queue: [Entry<G>; 5],
    list: [Mark<G>; 8],
}

impl<G: Grade> Arrays<G> {
    // A queue for a plan of at most five marks, and a list that has this mark all over.
    pub(crate) fn new(grade: G, mark: Mark<G>) -> Arrays<G> {
        Arrays {
            queue: [Entry::vacant(grade); 5],
            list: [mark; 8],
        }
    }

    pub(crate) fn lend(&mut self) -> Lent<'_, G> {
        let queue = &mut self.queue;
        let list = &mut self.list;
        Lent {
            queue: &mut queue[..],
            list: &mut list[..],
        }
    }
}

// Draws up to so many marks from a plan of at most five.
fn lists(
    rt: &(impl Abort + AllocGlobal),
    plan: &Plan<'_, Points>,
    k: usize,
    case: Case<'_>,
) -> Result<(), Fail> {
    let mut queue = [Entry::vacant(points(0)); 5];
    let mut list = vec![in rt.alloc(); mark(9, 9, 9); k]?;
    let mut lent = Lent {
        queue: &mut queue,
        list: list.as_mut_slice(),
    };
    lent.draws(rt, plan, case)
}

#[test]
fn the_best_marks_of_the_whole_plan(rt: HostRuntime) -> Result<(), Fail> {
    let mut places = [Place::vacant(points(0)); 5];
    let mut plan = Plan::open(2, &mut places);
    enter_marks(&rt, &mut plan);
    let best = [[0, 3, 9], [2, 1, 7], [0, 0, 5], [1, 1, 5], [3, 3, 1]];
    let whole = window(0, 0, 3, 3);
    for k in 1..6usize {
        lists(&rt, &plan, k, Case::new(whole, &best[..k], k as u32))?;
    }
    lists(&rt, &plan, 8, Case::new(whole, &best, 5))?;
    lists(
        &rt,
        &plan,
        3,
        Case::new(window(0, 0, 65535, 65535), &best[..3], 3),
    )
}

// The refusal of a draw with a list and a queue of so many places.
fn refused(
    alloc: Global,
    plan: &Plan<'_, Points>,
    window: Window,
    places: usize,
    slots: usize,
) -> Result<Option<u8>, AllocError> {
    let mut queue = vec![in alloc; Entry::vacant(points(0)); slots]?;
    let mut list = vec![in alloc; mark(9, 8, 7); places]?;
    Ok(refusal(draw(plan, window, queue.as_mut_slice(), list.as_mut_slice())))
}

#[test]
fn the_first_fault_of_a_draw_is_answered(rt: HostRuntime) -> Result<(), Fail> {
    let mut places = [Place::vacant(points(0)); 7];
    let mut plan = Plan::open(2, &mut places);
    enter_marks(&rt, &mut plan);
    let whole = window(0, 0, 3, 3);
    assert_eq!(rt;
        refused(rt.alloc(), &plan, window(9, 9, 8, 8), 0, 4)?,
        Some(19)
    );
    assert_eq!(rt; refused(rt.alloc(), &plan, whole, 0, 4)?, Some(20));
    assert_eq!(rt; refused(rt.alloc(), &plan, whole, 8, 4)?, Some(21));
    assert_eq!(rt; refused(rt.alloc(), &plan, whole, 8, 5)?, None);
    Ok(())
}
