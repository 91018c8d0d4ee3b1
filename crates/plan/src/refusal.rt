//! Why a call on a plan is turned down.
ghost use Rattle.std.proofs.Common.{rules};
ghost use Rattle.plan.specs.Refusals.{refusal_number};

use refusals::Refusal;

/// The reason for which a call on a plan is turned down.
#[derive(Clone, Copy, PartialEq, Eq, Debug)]
pub enum PlanRefusal {
    /// A plan is opened with a level above 10.
    Side,
    /// A plan is opened over no places, or over more than 65,535.
    Places,
    /// The cell lies off the plan.
    Off,
    /// A mark is entered in a cell that has one.
    Taken,
    /// The cell has no mark.
    Vacant,
    /// A mark is entered where there are as many marks as places.
    Full,
}

impl Refusal for PlanRefusal {
    ghost numbered = { refusal_number };

    ghost listed = { Prim.search rules };

    fn number(self) -> u8 {
        match self {
            PlanRefusal::Side => 1,
            PlanRefusal::Places => 2,
            PlanRefusal::Off => 4,
            PlanRefusal::Taken => 5,
            PlanRefusal::Vacant => 6,
            PlanRefusal::Full => 7,
        }
    }
}
