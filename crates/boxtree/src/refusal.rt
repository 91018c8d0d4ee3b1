//! Why a box tree turns a question down.
ghost use Rattle.std.proofs.Common.{rules};
ghost use Rattle.boxtree.specs.Refusals.{absent_number};

use refusals::Refusal;

/// The tree does not show the box, or the quadrant is above 3.
#[derive(Clone, Copy, PartialEq, Eq, Debug)]
pub struct Absent;

impl Refusal for Absent {
    ghost numbered = { absent_number };

    ghost listed = { Prim.search rules };

    fn number(self) -> u8 {
        22
    }
}
