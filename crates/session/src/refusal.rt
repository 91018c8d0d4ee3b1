//! Why a session turns a line down.
ghost use Rattle.std.specs.Prelude.{◌≡◌};
ghost use Rattle.std.proofs.Common.{rules};
ghost use Rattle.session.specs.Refusals.{refusal_number};
ghost use Rattle.session.specs.declared.refusal.Refused.TheVariants.{Line, Plan, Draw};
ghost use Rattle.book.specs.declared.reply.Reply.TheVariants.{No};

use book::{Reply, Unusable};
use draw::DrawRefusal;
use plan::PlanRefusal;
use refusals::Refusal;

/// What turned a line down.
#[derive(Clone, Copy, PartialEq, Eq, Debug)]
pub(crate) enum Refused {
    /// The line cannot be used, or not before a plan is opened.
    Line(Unusable),
    /// The plan turned a call down.
    Plan(PlanRefusal),
    /// The plan turned a draw down.
    Draw(DrawRefusal),
}

impl Refusal for Refused {
    ghost numbered = { refusal_number };

    ghost listed = { Prim.search rules };

    fn number(self) -> u8 {
        match self {
            Refused::Line(e) => e.number(),
            Refused::Plan(e) => e.number(),
            Refused::Draw(e) => e.number(),
        }
    }
}

impl From<Unusable> for Refused {
    ghost from_gives = { λ e r. r ≡ Line e };

    fn from(e: Unusable) -> Refused {
        Refused::Line(e)
    }
}

impl From<PlanRefusal> for Refused {
    ghost from_gives = { λ e r. r ≡ Plan e };

    fn from(e: PlanRefusal) -> Refused {
        Refused::Plan(e)
    }
}

impl From<DrawRefusal> for Refused {
    ghost from_gives = { λ e r. r ≡ Draw e };

    fn from(e: DrawRefusal) -> Refused {
        Refused::Draw(e)
    }
}

/// A refusal is answered by its number.
impl From<Refused> for Reply {
    ghost from_gives = { λ e r. r ≡ No (refusal_number e) };

    fn from(e: Refused) -> Reply {
        Reply::No(e.number())
    }
}
