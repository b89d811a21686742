//! A set of files, a bit for each.
ghost use Rattle.std.specs.Prelude.{◌≡◌, ℕ, ◌≤◌, false, ◌||◌, MatchOption, ◌==◌};
ghost use Rattle.card.specs.Sets.{has};

/// The bits of all eighteen files.
const ALL: u32 = 0x3_ffff;

/// Some of the files of a card.
#[derive(Clone, Copy, Debug, PartialEq, Eq)]
pub struct FileSet {
    bits: u32,
}

impl FileSet {
    ghost use Rattle.sheet.specs.Sheets.{Complete, LowestMissing};

    /// No file.
    pub(crate) fn empty() -> FileSet
        ensures { (f : ℕ) → has result.bits f ≡ false }
    {
        FileSet { bits: 0 }
    }

    /// One file more.
    pub(crate) fn insert(&mut self, file: u8)
        requires { file ≤ 17 }
        ensures { (f : ℕ) → has self.new.bits f ≡ (f == file || has self.old.bits f) }
    {
        self.bits |= 1 << file;
    }

    /// The lowest file that is not in the set.
    pub(crate) fn lowest_missing(self) -> Option<u8>
        ensures { MatchOption result (Complete (has self.bits)) (LowestMissing (has self.bits)) }
    {
        let missing = (self.bits ^ ALL) & ALL;
        if missing == 0 {
            return None;
        }
        Some(missing.trailing_zeros() as u8)
    }
}
