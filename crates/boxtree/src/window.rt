//! The part of the grid that is drawn.

/// The rows from `top` to `bottom` and the columns from `left` to `right`, the ends among them.
#[derive(Clone, Copy, PartialEq, Eq, Debug)]
pub struct Window {
    pub top: u16,
    pub left: u16,
    pub bottom: u16,
    pub right: u16,
}
