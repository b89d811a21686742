//! Counting lines.
ghost use Rattle.std.specs.Prelude.{◌≡◌, ◌+◌, ◌<◌, ◌≤◌, length, sum_by};
ghost use Rattle.card.specs.Sheets.{passing, failing, unapplied, blocked};
ghost use Rattle.sheet.specs.Tables.{line_count};

use card::Line;
use std::fmt;

/// The lines of a sheet counted by their state; an open one is in no count.
#[derive(Clone, Copy, Debug, Default, PartialEq, Eq)]
pub struct Tally {
    pub pass: u8,
    pub fail: u8,
    pub not_applicable: u8,
    pub blocked: u8,
}

impl Tally {
    /// One line more.
    fn count(&mut self, line: Line)
        requires { (self.old.pass < 255) × (self.old.fail < 255)
            × (self.old.not_applicable < 255) × (self.old.blocked < 255) }
        ensures pass { self.new.pass ≡ self.old.pass + passing line }
        ensures fail { self.new.fail ≡ self.old.fail + failing line }
        ensures unapplied { self.new.not_applicable ≡ self.old.not_applicable + unapplied line }
        ensures blocked { self.new.blocked ≡ self.old.blocked + blocked line }
    {
        self.pass += u8::from(matches!(line, Line::Pass));
        self.fail += u8::from(matches!(line, Line::Fail { .. }));
        self.not_applicable += u8::from(matches!(line, Line::NotApplicable));
        self.blocked += u8::from(matches!(line, Line::Blocked));
    }
}

impl fmt::Display for Tally {
    fn fmt<W: fmt::Write>(&self, f: &mut fmt::Formatter<W>) -> fmt::Result {
        write!(
            f,
            "{} pass, {} fail, {} not applicable, {} blocked",
            self.pass, self.fail, self.not_applicable, self.blocked
        )
    }
}

/// Counts a row of lines.
pub(crate) fn tally_of(lines: &[Line]) -> Tally
    requires { length lines.now ≤ line_count }
    ensures pass { result.pass ≡ sum_by passing lines.now }
    ensures fail { result.fail ≡ sum_by failing lines.now }
    ensures unapplied { result.not_applicable ≡ sum_by unapplied lines.now }
    ensures blocked { result.blocked ≡ sum_by blocked lines.now }
{
    let mut tally = Tally::default();
    for line in lines {
        tally.count(*line);
    }
    tally
}
