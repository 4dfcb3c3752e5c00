//! Why a place of a capture has no record.
ghost use Rattle.std.specs.Prelude.{◌≡◌};
ghost use Rattle.capture.specs.Answers.{number_of, refusal_of};

use basis::Refusal;
use std::error::Error;
use std::fmt;

/// Why a place of a capture has no record.
#[derive(Clone, Copy, Debug, PartialEq, Eq)]
pub enum Damage {
    /// The two bytes there are neither of the two marks.
    BadMark,
    /// The capture ends within the record.
    CutShort,
}

impl Damage {
    /// The number that hosts are answered with: 20 or 21.
    pub fn number(self) -> u8
        ensures { result ≡ number_of self }
    {
        Refusal::from(self).number()
    }
}

impl From<Damage> for Refusal {
    ghost from_gives = { λ damage refusal. refusal ≡ refusal_of damage };

    fn from(damage: Damage) -> Refusal {
        match damage {
            Damage::BadMark => Refusal::BadMark,
            Damage::CutShort => Refusal::CutShort,
        }
    }
}

impl fmt::Display for Damage {
    fn fmt<W: fmt::Write>(&self, f: &mut fmt::Formatter<W>) -> fmt::Result {
        Refusal::from(*self).fmt(f)
    }
}

impl Error for Damage {}
