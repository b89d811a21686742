//! The changed source: what a row of changes, one after the other, makes of the files of a source below.
//! It asks below for whatever it is asked for itself, also of a file that is removed.
ghost use Rattle.std.specs.Prelude.{◌≡◌, ◌+◌, [], IfErr, OnErr, OnOk};
ghost use Rattle.changed.specs.Changes.{AddsChange, removed, with_settings};
ghost use Rattle.changed.specs.Calls.{Removes, Sets, setting, NamesFile, NamesPlace};
ghost use Rattle.changed.specs.declared.change.ChangeRefusal.TheVariants.{Full};
ghost use Rattle.changed.specs.Calls.{below_of, changes_of, change_count, changed_files, changed_short, ChangedReads};

use crate::change::{Change, ChangeRefusal};
use arrayvec::ArrayVec;
use card::EF_SOD;
use source::read::MOST_WANTED;
use source::{Fault, Source, well_formed};

/// How many changes a source takes.
const MOST_CHANGES: usize = 16;

/// The last place that a file can have.
const LAST_PLACE: u16 = 32766;

/// Any source with changes laid on its files.
#[derive(Drop)]
pub struct Changed<S> {
    below: S,
    changes: ArrayVec<Change, MOST_CHANGES>,
}

impl<S: Source> Changed<S> {
    /// A source without changes.
    pub fn over(below: S) -> Changed<S>
        ensures below { below_of result ≡ below }
        ensures files { changed_files S.files result ≡ S.files below }
        ensures none { changes_of result ≡ [] }
    {
        Changed {
            below,
            changes: ArrayVec::new(),
        }
    }

    // Each of the calls below says of the source before and after it what stays: no invariant of the type can.

    /// Removes a file for good.
    pub fn remove(&mut self, file: u8) -> Result<(), ChangeRefusal>
        ensures removes { Removes file (change_count self.old) (changed_files S.files self.old)
            (changed_files S.files self.new) result }
        ensures count { OnOk result (change_count self.new ≡ change_count self.old + 1) }
        ensures below { below_of self.new ≡ below_of self.old }
        ensures still { OnErr result (self.new ≡ self.old) }
        ensures named { IfErr result (NamesFile file) }
    {
        if file > EF_SOD {
            return Err(ChangeRefusal::NoFile { file });
        }
        self.add(Change::Remove { file })
    }

    /// Sets the byte at a place of a file, if the file has this place; it makes no file, and none longer.
    pub fn set(&mut self, file: u8, place: u16, byte: u8) -> Result<(), ChangeRefusal>
        ensures sets { Sets (setting file place byte) (change_count self.old)
            (changed_files S.files self.old) (changed_files S.files self.new) result }
        ensures count { OnOk result (change_count self.new ≡ change_count self.old + 1) }
        ensures below { below_of self.new ≡ below_of self.old }
        ensures still { OnErr result (self.new ≡ self.old) }
        ensures named { IfErr result (λ refusal.
            NamesFile file refusal × NamesPlace place refusal) }
    {
        if file > EF_SOD {
            return Err(ChangeRefusal::NoFile { file });
        }
        if place > LAST_PLACE {
            return Err(ChangeRefusal::NoPlace { place });
        }
        self.add(Change::Set { file, place, byte })
    }

    /// Adds a change after the others.
    fn add(&mut self, change: Change) -> Result<(), ChangeRefusal>
        ensures adds { AddsChange «change» (changes_of self.old) (changes_of self.new) result }
        ensures below { below_of self.new ≡ below_of self.old }
        ensures still { OnErr result (self.new ≡ self.old) }
        ensures full { IfErr result (λ refusal. refusal ≡ Full) }
    {
        self.changes.try_push(change)?;
        Ok(())
    }
}

/// Whether one of the changes removes the file.
fn any_removes(changes: &[Change], file: u8) -> bool
    ensures { result ≡ removed changes.now file }
{
    changes.iter().any(|change| change.removes(file))
}

/// Lays the changes on a part of a file that begins at a place, one after the other.
fn lay_all_on(changes: &[Change], file: u8, from: u16, part: &mut [u8])
    ensures { part.new ≡ with_settings changes.now file from part.old }
{
    for change in changes {
        change.lay_on(file, from, part);
    }
}

impl<S: Source> Source for Changed<S> {
    ghost files = { changed_files S.Source.files };

    ghost lost = { λ s. S.Source.lost (below_of s) };

    ghost bounded = { changed_short S.Source.files S.Source.bounded };

    ghost outcomes = { ChangedReads S.Source.outcomes };

    fn read(
        &mut self,
        file: u8,
        place: u16,
        wanted: usize,
        buffer: &mut [u8],
    ) -> Result<Option<usize>, Fault> {
        if !well_formed(file, wanted, buffer) {
            return Err(Fault::Malformed);
        }
        if any_removes(&self.changes, file) {
            let mut unseen = [0u8; MOST_WANTED];
            self.below.read(file, place, wanted, &mut unseen)?;
            return Ok(None);
        }
        let answer = self.below.read(file, place, wanted, buffer)?;
        if let Some(brought) = answer {
            lay_all_on(&self.changes, file, place, &mut buffer[..brought]);
        }
        Ok(answer)
    }
}
