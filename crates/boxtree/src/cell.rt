//! Cells of the grid.

/// A cell, by its row and its column. Cells are ordered row by row.
#[derive(Clone, Copy, PartialEq, Eq, PartialOrd, Ord, Debug)]
pub struct Cell {
    pub row: u16,
    pub col: u16,
}
