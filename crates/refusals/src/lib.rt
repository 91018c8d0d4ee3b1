//! Refusals: why a call is turned down, told by a number.
#![tactic(auto)]

ghost use Rattle.std.specs.Prelude.{◌≡◌, ℕ, ◌≤◌};

/// A reason for which a call is turned down. Each reason has a number, 1 to 24, by which books and documents tell it.
pub trait Refusal: Copy {
    ghost numbered: { Self → ℕ };

    /// The number of the refusal.
    fn number(self) -> u8
        ensures { result ≡ numbered self };

    ghost listed: { (e : Self) → (1 ≤ numbered e) × (numbered e ≤ 24) };
}
