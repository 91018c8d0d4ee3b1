//! The quadrants of a square.
ghost use Rattle.boxtree.specs.Quadrants.{Indexed};

use crate::refusal::Absent;

/// A quarter of a square. A box tree is asked for one by its index: 0 top left, 1 top right, 2 bottom left, 3 bottom right.
#[derive(Clone, Copy, PartialEq, Eq, Debug)]
pub enum Quadrant {
    TopLeft,
    TopRight,
    BottomLeft,
    BottomRight,
}

impl Quadrant {
    /// The four quadrants, in the order of their indices.
    pub const ALL: [Quadrant; 4] = [
        Quadrant::TopLeft,
        Quadrant::TopRight,
        Quadrant::BottomLeft,
        Quadrant::BottomRight,
    ];
}

/// The quadrant that has an index. No quadrant has one above 3.
impl TryFrom<u8> for Quadrant {
    type Error = Absent;

    ghost try_from_gives = { Indexed };

    fn try_from(q: u8) -> Result<Quadrant, Absent> {
        match q {
            0 => Ok(Quadrant::TopLeft),
            1 => Ok(Quadrant::TopRight),
            2 => Ok(Quadrant::BottomLeft),
            3 => Ok(Quadrant::BottomRight),
            _ => Err(Absent),
        }
    }
}

/// The index of a quadrant.
impl From<Quadrant> for u8 {
    ghost use Rattle.std.specs.Prelude.{◌≡◌};
    ghost use Rattle.treap.specs.Trees.{index};
    ghost use Rattle.boxtree.specs.Quadrants.{quadrant_of};

    ghost from_gives = { λ q r. r ≡ index (quadrant_of q) };

    fn from(q: Quadrant) -> u8 {
        q as u8
    }
}
