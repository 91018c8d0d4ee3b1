//! Points: the grades 0 to 65,535, of which the larger stands above.
ghost use Rattle.std.specs.Prelude.{◌≡◌};
ghost use Rattle.grade.specs.Kinds.{points};
ghost use Rattle.std.proofs.Common.{rules};

use crate::Grade;

/// A grade in points. The code is the number.
#[derive(Clone, Copy, PartialEq, Eq, Debug)]
pub struct Points {
    pub value: u16,
}

impl Grade for Points {
    ghost kind = { points };

    ghost coded = { λ p. p.value };

    ghost laws = { Prim.search rules };

    fn kind_number() -> u8 {
        1
    }

    fn above(self, other: Points) -> bool {
        self.value >= other.value
    }

    fn code(self) -> u16 {
        self.value
    }

    fn from_code(code: u16) -> Option<Points> {
        Some(Points { value: code })
    }

    fn step(self, to: Points) -> Option<u16> {
        self.value.checked_sub(to.value)
    }

    fn back(self, by: u16) -> Option<Points> {
        let value = self.value.checked_sub(by)?;
        Some(Points { value })
    }
}
