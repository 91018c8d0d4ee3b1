//! Why a shift is turned down.
ghost use Rattle.std.proofs.Common.{rules};
ghost use Rattle.layer.specs.Refusals.{shift_number};

use refusals::Refusal;

/// A row or a column of the shifted square would pass 65,535.
#[derive(Clone, Copy, PartialEq, Eq, Debug)]
pub struct PastEdge;

impl Refusal for PastEdge {
    ghost numbered = { shift_number };

    ghost listed = { Prim.search rules };

    fn number(self) -> u8 {
        18
    }
}
