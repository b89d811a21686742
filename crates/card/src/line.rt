//! A line of the sheet: what it says of its case.
ghost use Rattle.std.specs.Prelude.{◌≡◌};
ghost use Rattle.card.specs.Lines.{line_of};
ghost use Rattle.card.specs.declared.line.Line.TheVariants.{Fail};

use std::fmt;

/// Where a case fails: an offset in the file.
#[derive(Clone, Copy, Debug, PartialEq, Eq)]
pub struct Failure {
    pub place: usize,
}

/// What a line says of its case.
#[derive(Clone, Copy, Debug, PartialEq, Eq)]
pub enum Line {
    /// The file has not been judged.
    Open,
    /// The case holds.
    Pass,
    /// The case does not hold; the place is an offset in the file.
    Fail { place: usize },
    /// The case does not apply to this file under this profile.
    NotApplicable,
    /// An earlier case of the file failed.
    Blocked,
}

impl Line {
    /// The line of a case that is judged: it passes where the case holds, and fails at this place where not.
    pub fn judged(holds: bool, place: usize) -> Line
        ensures { result ≡ line_of holds place }
    {
        if holds {
            Line::Pass
        } else {
            Line::Fail { place }
        }
    }
}

impl From<Failure> for Line {
    ghost from_gives = { λ failure line. line ≡ Fail failure.place };

    fn from(failure: Failure) -> Line {
        Line::Fail {
            place: failure.place,
        }
    }
}

impl fmt::Display for Line {
    fn fmt<W: fmt::Write>(&self, f: &mut fmt::Formatter<W>) -> fmt::Result {
        match *self {
            Line::Open => write!(f, "open"),
            Line::Pass => write!(f, "pass"),
            Line::Fail { place } => write!(f, "fail at {place}"),
            Line::NotApplicable => write!(f, "not applicable"),
            Line::Blocked => write!(f, "blocked"),
        }
    }
}
