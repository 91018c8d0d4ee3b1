//! Monuments: grades of a class, 1 to 5, and a year, 1700 to 2099.
ghost use Rattle.std.specs.Prelude.{◌≡◌, ℕ, ◌==◌};
ghost use Rattle.grade.specs.Kinds.{monument, read_class, read_year, read_code};
ghost use Rattle.grade.specs.Refusal.{made_as, monument_made, bad_grade_number};
ghost use Rattle.std.specs.Cmp.Rules.{comparing};
ghost use Rattle.std.proofs.Common.{rules};
ghost use Rattle.grade.specs.Laws.{monument_laws};

use crate::Grade;
use refusals::Refusal;

/// A grade of the lower class stands above, and of one class the later year does. Whatever the number `v` is, it is read
/// as a lawful grade: class 1 + (v mod 2000) div 400, year 1700 + v mod 400.
// It derives no equality and no `Debug`, which would tell the number and not the grade.
#[derive(Clone, Copy)]
pub struct Monument {
    v: u16,
}

/// The class or the year is out of range.
#[derive(Clone, Copy, PartialEq, Eq, Debug)]
pub struct BadGrade;

impl Refusal for BadGrade {
    ghost numbered = { bad_grade_number };

    ghost listed = { Prim.search rules };

    fn number(self) -> u8 {
        3
    }
}

impl Monument {
    /// The monument of a class and a year.
    pub fn new(class: u16, year: u16) -> Result<Monument, BadGrade>
        ensures { made_as result ≡ monument_made class year }
    {
        if !(1..=5).contains(&class) || !(1700..=2099).contains(&year) {
            return Err(BadGrade);
        }
        Ok(Monument {
            v: (class - 1) * 400 + (year - 1700),
        })
    }

    /// The class, 1 to 5.
    pub fn class(self) -> u16
        ensures { result ≡ read_class self.v }
    {
        1 + (self.v % 2000) / 400
    }

    /// The year, 1700 to 2099.
    pub fn year(self) -> u16
        ensures { result ≡ read_year self.v }
    {
        1700 + self.v % 400
    }
}

/// Monuments are equal where their classes and years are, whatever numbers they are held by.
// By hand: a derive would compare the numbers.
impl PartialEq for Monument {
    ghost eq = { λ m n. (read_code m.v == read_code n.v) };

    ghost laws = { Prim.search (comparing, rules) };

    fn eq(&self, other: &Monument) -> bool {
        self.code() == other.code()
    }
}

impl Eq for Monument {
    ghost laws = { Prim.search (comparing, rules) };
}

impl Grade for Monument {
    ghost kind = { monument };

    ghost coded = { λ m. read_code m.v };

    ghost laws = { monument_laws };

    fn kind_number() -> u8 {
        2
    }

    fn above(self, other: Monument) -> bool {
        let mine = self.class();
        let theirs = other.class();
        if mine == theirs {
            self.year() >= other.year()
        } else {
            mine < theirs
        }
    }

    fn code(self) -> u16 {
        self.class() * 512 + (self.year() - 1700)
    }

    fn from_code(code: u16) -> Option<Monument> {
        Monument::new(code / 512, 1700 + code % 512).ok()
    }

    fn step(self, to: Monument) -> Option<u16> {
        if !self.above(to) {
            return None;
        }
        Some((to.class() - self.class()) * 512 + (to.year() - 1700))
    }

    fn back(self, by: u16) -> Option<Monument> {
        let to = Monument::new(self.class() + by / 512, 1700 + by % 512).ok()?;
        self.above(to).then_some(to)
    }
}
