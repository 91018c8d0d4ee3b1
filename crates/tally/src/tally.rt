//! A tally of draws.
ghost use Rattle.std.specs.Prelude.{◌≡◌};
ghost use Rattle.std.proofs.Common.{rules};
ghost use Rattle.tally.specs.Tallies.{blank, full_number, numbered, note_refusal, noted};

use refusals::Refusal;

/// How many draws were accepted, and how many boxes these opened.
#[derive(Clone, Copy, PartialEq, Eq, Debug)]
pub struct Tally {
    draws: u32,
    opened: u32,
}

/// A number of the tally would pass 4,294,967,295.
#[derive(Clone, Copy, PartialEq, Eq, Debug)]
pub struct TallyFull;

impl Refusal for TallyFull {
    ghost numbered = { full_number };

    ghost listed = { Prim.search rules };

    fn number(self) -> u8 {
        23
    }
}

impl Tally {
    /// A tally of no draws.
    pub fn new() -> Tally
        ensures { result ≡ blank }
    {
        Tally {
            draws: 0,
            opened: 0,
        }
    }

    /// How many draws are noted.
    pub fn draws(&self) -> u32
        ensures { result ≡ self.now.draws }
    {
        self.draws
    }

    /// How many boxes the noted draws opened.
    pub fn opened(&self) -> u32
        ensures { result ≡ self.now.opened }
    {
        self.opened
    }

    /// Notes a draw that opened so many boxes. A refusal leaves the tally as it was.
    pub fn note(&mut self, opened: u32) -> Result<(), TallyFull>
        ensures answer { numbered result ≡ note_refusal self.old opened }
        ensures tally { self.new ≡ noted self.old opened }
    {
        *self = Tally {
            draws: self.draws.checked_add(1).ok_or(TallyFull)?,
            opened: self.opened.checked_add(opened).ok_or(TallyFull)?,
        };
        Ok(())
    }
}
