//! Why a draw is turned down.
ghost use Rattle.std.proofs.Common.{rules};
ghost use Rattle.draw.specs.Refusals.{refusal_number};

use refusals::Refusal;

/// Why a draw is turned down.
#[derive(Clone, Copy, PartialEq, Eq, Debug)]
pub enum DrawRefusal {
    /// The window's top is above its bottom as numbers, or its left above its right.
    Window,
    /// The list has no places.
    List,
    /// The queue has fewer places than the tree's ceiling.
    Queue,
}

impl Refusal for DrawRefusal {
    ghost numbered = { refusal_number };

    ghost listed = { Prim.search rules };

    fn number(self) -> u8 {
        match self {
            DrawRefusal::Window => 19,
            DrawRefusal::List => 20,
            DrawRefusal::Queue => 21,
        }
    }
}
