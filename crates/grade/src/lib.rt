//! Grade kinds: what every kind of grade answers, and the two kinds there are.
#![tactic(auto)]

ghost use Rattle.std.specs.Prelude.{◌≡◌, ℕ, true, if◌then◌else◌, Some, None};
ghost use Rattle.grade.specs.Kind.{Kind, Laws, codes, checked};

pub mod monument;
pub mod points;

/// A kind of grade. A specification knows a grade by its code alone, so two values with one code are one grade.
pub trait Grade: Copy {
    // The order, the codes and the steps of the kind.
    ghost kind: { Kind };

    // The code of the grade that a value stands for.
    ghost coded: { Self → ℕ };

    /// The number of the kind, 1 to 255, which no other kind has.
    // A number and no enum: it is what sheets hold, and any crate may add a kind.
    fn kind_number() -> u8
        ensures { result ≡ kind.number };

    /// Whether this grade stands above or level with the other.
    fn above(self, other: Self) -> bool
        ensures { result ≡ kind.above (coded self) (coded other) };

    /// The code of the grade.
    fn code(self) -> u16
        ensures is { result ≡ coded self }
        ensures lawful { kind.is_code result ≡ true };

    /// The grade that has the code, or none where no grade of the kind has it.
    fn from_code(code: u16) -> Option<Self>
        ensures { codes coded result ≡ checked kind code };

    /// The step from this grade down to the other, or none where this one does not stand above or level with it.
    fn step(self, to: Self) -> Option<u16>
        ensures { result ≡ kind.step (coded self) (coded to) };

    /// The grade to which a step leads from this one, or none where it leads to none.
    fn back(self, by: u16) -> Option<Self>
        ensures { codes coded result ≡ kind.back (coded self) by };

    ghost laws: { Laws kind };
}

/// The grade that the code of a grade gives back: that grade.
pub fn read_back<G: Grade>(g: G) -> Option<G>
    ensures { codes G.Grade.coded result ≡ Some (G.Grade.coded g) }
{
    G::from_code(g.code())
}

/// Where the step from one grade to another leads: to the other, where the first stands above or level with it.
pub fn step_back<G: Grade>(from: G, to: G) -> Option<G>
    ensures { codes G.Grade.coded result ≡ (if G.Grade.kind.above (G.Grade.coded from) (G.Grade.coded to) then Some (G.Grade.coded to) else None) }
{
    // That the two codes are lawful is told by the answers.
    let _ = from.code();
    let _ = to.code();
    from.back(from.step(to)?)
}
