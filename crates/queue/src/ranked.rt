//! Entries that have a ranking.
ghost use Rattle.std.specs.Prelude.{◌≡◌, Bool};
ghost use Rattle.queue.specs.Ranks.{Ranking};

/// An entry of which it can be told whether it comes before another. Two entries of which neither outranks the other
/// are level; they may still differ.
// A trait of its own and no `Ord`: level entries need not be equal.
pub trait Ranked: Copy {
    ghost over: { Self → Self → Bool };

    /// Whether it comes before the other.
    fn outranks(self, other: Self) -> bool
        ensures { result ≡ over self other };

    ghost laws: { Ranking over };
}
