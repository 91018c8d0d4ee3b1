//! The state of a session.
use grade::points::Points;
use plan::Plan;

/// A plan of points, and whether a line has opened it yet.
#[derive(Drop)]
pub struct Session<'a> {
    pub(crate) plan: Plan<'a, Points>,
    // A flag and no `Option` of the plan: the plan has the places that were lent, and keeps them while none is opened.
    pub(crate) started: bool,
}
