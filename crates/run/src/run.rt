//! The run: the sheet of one card, read from a source and judged under a profile.
ghost use Rattle.std.specs.Prelude.{◌≡◌, true, false, IfOk};
ghost use Rattle.source.specs.Whole.{Ready};
ghost use Rattle.sheet.specs.Sheets.{Blank};

use crate::refusal::{AskRefusal, CloseRefusal, JudgeRefusal};
use card::{Line, Profile};
use cases::write_verdict;
use sheet::{Sheet, Tally};
use source::{Source, read_whole};
use std::fmt;

/// What an accepted close says.
#[derive(Clone, Copy, Debug, PartialEq, Eq)]
pub struct Summary {
    /// No line fails. The tally says it too; a close answers both.
    pub clean: bool,
    /// How many lines there are of each kind.
    pub tally: Tally,
}

impl fmt::Display for Summary {
    fn fmt<W: fmt::Write>(&self, f: &mut fmt::Formatter<W>) -> fmt::Result {
        let word = if self.clean { "clean" } else { "not clean" };
        write!(f, "{word}; {}", self.tally)
    }
}

/// A run: the source it reads, the profile it judges by, its sheet, and whether a close was accepted.
#[derive(Drop)]
pub struct Run<S> {
    source: S,
    profile: Profile,
    sheet: Sheet,
    closed: bool,
}

impl<S: Source> Run<S> {
    ghost use Rattle.run.specs.Calls.{judge_call, ask_call, JudgeReads};
    ghost use Rattle.run.specs.Histories.{new_run, Judging, Asking, Closing};
    ghost use Rattle.run.specs.Holding.{source_of, profile_of, sheet_of, is_closed, card_of, moment_of};
    ghost use Rattle.run.specs.Holding.{Kept, JudgesOn, Asks, Closes};
    ghost use Rattle.run.specs.Promise.{CloseMeans};

    /// A run at its beginning: the sheet is blank, and no close came yet.
    pub fn open(source: S, profile: Profile) -> Run<S>
        ensures source { source_of result ≡ source }
        ensures profile { profile_of result ≡ profile }
        ensures blank { Blank (sheet_of result) }
        ensures kept { Kept S.files result }
        ensures new { moment_of S.lost result ≡ new_run (S.lost source) }
    {
        Run {
            source,
            profile,
            sheet: Sheet::new(),
            closed: false,
        }
    }

    /// Reads a file whole to the buffer's start, and writes its lines onto the sheet, for the first time or once more.
    pub fn judge(&mut self, file: u8, buffer: &mut [u8]) -> Result<(), JudgeRefusal>
        ensures files { card_of S.files self.new ≡ card_of S.files self.old }
        ensures lasts { S.lost (source_of self.old) ≡ true → S.lost (source_of self.new) ≡ true }
        ensures same { (profile_of self.new ≡ profile_of self.old)
            × (is_closed self.new ≡ is_closed self.old) }
        ensures judging { Judging (card_of S.files self.old) (moment_of S.lost self.old)
            (judge_call file buffer.old buffer.new result) (moment_of S.lost self.new) }
        ensures sheet { JudgesOn S.files self.old
            (judge_call file buffer.old buffer.new result) self.new }
        ensures kept { Kept S.files self.old → Kept S.files self.new }
        ensures reads { is_closed self.old ≡ false → Ready file buffer.old
            → JudgeReads S.outcomes file (source_of self.old) result (source_of self.new) }
        ensures still { (is_closed self.old ≡ false → Ready file buffer.old → ⊥)
            → source_of self.new ≡ source_of self.old }
    {
        if self.closed {
            return Err(JudgeRefusal::Closed);
        }
        let count = read_whole(&mut self.source, file, buffer)?;
        let content = count.map(|count| &buffer[..count]);
        write_verdict(&mut self.sheet, file, content, self.profile);
        Ok(())
    }

    /// The line of a case and a file, whether the run is closed or not.
    pub fn ask(&self, case: u8, file: u8) -> Result<Line, AskRefusal>
        ensures asks { Asks (sheet_of self.now) (ask_call case file result) }
        ensures lawful { Kept S.files self.now
            → Asking (card_of S.files self.now) (profile_of self.now)
            (moment_of S.lost self.now) (ask_call case file result) }
    {
        self.sheet
            .line(case, file)
            .ok_or(AskRefusal::NoLine { case, file })
    }

    /// Closes the run, if no file is left to judge and it is not closed yet.
    pub fn close(&mut self) -> Result<Summary, CloseRefusal>
        ensures source { source_of self.new ≡ source_of self.old }
        ensures profile { profile_of self.new ≡ profile_of self.old }
        ensures sheet { sheet_of self.new ≡ sheet_of self.old }
        ensures closes { Closes self.old result self.new }
        ensures lawful { Kept S.files self.old
            → Closing (card_of S.files self.old) (profile_of self.old)
            (moment_of S.lost self.old) result (moment_of S.lost self.new) }
        ensures means { Kept S.files self.old
            → IfOk result (CloseMeans (card_of S.files self.old) (profile_of self.old)) }
    {
        if self.closed {
            return Err(CloseRefusal::Closed);
        }
        if let Some(file) = self.sheet.lowest_unjudged() {
            return Err(CloseRefusal::Unjudged { file });
        }
        let tally = self.sheet.tally();
        self.closed = true;
        Ok(Summary {
            clean: tally.fail == 0,
            tally,
        })
    }

    /// Ends the run and hands its source back.
    pub fn into_source(self) -> S
        ensures { result ≡ source_of self }
    {
        let Run { source, .. } = self;
        source
    }
}
