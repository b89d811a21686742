//! The sheet: the lines of a file are set together, and a line is looked up by its case and file.
ghost use Rattle.std.specs.Prelude.{◌≡◌, ℕ, ◌+◌, ◌<◌, ◌≤◌, ◌↔◌, length, IsTrue, MatchOption, slice_set};
ghost use Rattle.card.specs.Cases.{HasLine};
ghost use Rattle.sheet.specs.Tables.{line_count, place, Put, lines_of};

use crate::files::FileSet;
use crate::tally::{Tally, tally_of};
use crate::walk::Walk;
use card::{EF_SOD, FILES, Line, OWN_CASES, SHARED_CASES};

/// How many lines there are.
pub const LINES: usize = 75;

/// Where the lines of the rows begin in the table, behind those of cases 1 to 3.
const OWN: usize = SHARED_CASES * FILES;

/// Where the line of a case and a file stands in the table, if there is one.
fn index(case: u8, file: u8) -> Option<usize>
    ensures { MatchOption result (HasLine case file → ⊥)
        (λ i. HasLine case file × (i ≡ place case file)) }
{
    if usize::from(case) <= SHARED_CASES {
        return shared_index(case, file);
    }
    let mut at = OWN;
    for row in &OWN_CASES {
        if row.has(case, file) {
            return Some(at + usize::from(case - row.first));
        }
        at += usize::from(row.count);
    }
    None
}

/// The same for the cases up to 3.
fn shared_index(case: u8, file: u8) -> Option<usize>
    requires { case ≤ 3 }
    ensures { MatchOption result (HasLine case file → ⊥)
        (λ i. HasLine case file × (i ≡ place case file)) }
{
    if case == 0 || file > EF_SOD {
        return None;
    }
    Some(SHARED_CASES * usize::from(file) + usize::from(case) - 1)
}

// A table of fixed size, of which a method sets one line at a time: no heap, and every line has its place. A line goes by
// two plain numbers, its case and its file, as callers and C name it.
/// The lines, and which files they were judged for.
#[derive(Drop)]
pub struct Sheet {
    lines: [Line; LINES],
    judged: FileSet,
    ghost long: { length lines ≡ line_count },
}

impl Sheet {
    ghost use Rattle.sheet.specs.Sheets.{line_on, is_judged, Blank, Written, table_of, Complete, LowestMissing, IsTally};
    ghost use Rattle.sheet.specs.Tables.{PutOwn};
    ghost use Rattle.card.specs.Cases.{lines_by_case};
    ghost use Rattle.sheet.specs.Walks.{still_to_give, walked, ListsCard, Ascends};

    /// A blank sheet.
    pub fn new() -> Sheet
        ensures { Blank result }
    {
        Sheet {
            lines: [Line::Open; LINES],
            judged: FileSet::empty(),
        }
    }

    /// Sets the lines of a file: those of the cases 1 to 3, and those of its own cases in order; it then counts as judged.
    /// An own case for which no line is given keeps its line, and lines for which there is no case are ignored. Answers
    /// whether there is a file of this number; where there is none, nothing changes.
    #[inline(always)]
    pub fn write(&mut self, file: u8, shared: &[Line; 3], own: &[Line]) -> bool
        ensures answer { IsTrue result ↔ (file ≤ 17) }
        ensures sets { file ≤ 17 →
            Written file (lines_of file shared.now own.now (λ case. line_on self.old case file))
            self.old self.new }
        ensures still { 17 < file → self.new ≡ self.old }
    {
        if file > EF_SOD {
            return false;
        }
        self.put(SHARED_CASES * usize::from(file), shared);
        self.put_own(file, own);
        self.judged.insert(file);
        true
    }

    /// Puts the lines of a file's own cases into the table, row by row.
    #[inline(always)]
    fn put_own(&mut self, file: u8, own: &[Line])
        ensures lines { PutOwn file own.now self.old.lines self.new.lines }
        ensures judged { self.new.judged ≡ self.old.judged }
    {
        let mut at = OWN;
        let mut rest = own;
        for row in &OWN_CASES {
            let count = usize::from(row.count);
            if row.file == file {
                let (these, behind) = rest.split_at(count.min(rest.len()));
                self.put(at, these);
                rest = behind;
            }
            at += count;
        }
    }

    // By the index and not as a copied slice: the lines are built right before, and go to their places one by one.
    /// Puts lines into the table, from a place on.
    #[inline(always)]
    fn put(&mut self, at: usize, lines: &[Line])
        requires { at + length lines.now ≤ line_count }
        ensures lines { Put at lines.now self.old.lines self.new.lines }
        ensures judged { self.new.judged ≡ self.old.judged }
    {
        for (i, line) in lines.iter().enumerate() {
            self.set(at + i, *line);
        }
    }

    /// Sets one line.
    #[inline(always)]
    fn set(&mut self, at: usize, line: Line)
        requires { at < line_count }
        ensures line { self.new.lines ≡ slice_set self.old.lines at line }
        ensures judged { self.new.judged ≡ self.old.judged }
    {
        self.lines[at] = line;
    }

    /// The line of a case and a file; `None` exactly if there is no such line.
    pub fn line(&self, case: u8, file: u8) -> Option<Line>
        ensures { MatchOption result (HasLine case file → ⊥)
            (λ line. HasLine case file × (line ≡ line_on self.now case file)) }
    {
        let i = index(case, file)?;
        Some(self.lines[i])
    }

    /// All lines: cases 1 to 3 of each file in turn, then the cases that one file alone has, row by row.
    pub fn lines(&self) -> &[Line]
        ensures { result.now ≡ table_of self.now }
    {
        &self.lines
    }

    /// The lines by case and then by file, each with its case and its file.
    pub fn walk(&self) -> Walk<'_>
        ensures gives { still_to_give result ≡ walked self.now }
        ensures order { ListsCard lines_by_case × Ascends lines_by_case }
    {
        Walk::over(self)
    }

    /// The lowest file that was not judged.
    pub fn lowest_unjudged(&self) -> Option<u8>
        ensures { MatchOption result (Complete (is_judged self.now))
            (LowestMissing (is_judged self.now)) }
    {
        self.judged.lowest_missing()
    }

    /// The lines counted by their state; an open one is in no count.
    pub fn tally(&self) -> Tally
        ensures { IsTally (line_on self.now) result }
    {
        tally_of(&self.lines)
    }
}
