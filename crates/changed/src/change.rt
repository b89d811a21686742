//! A change of a card's files, and why one is refused.
ghost use Rattle.std.specs.Prelude.{◌≡◌};
ghost use Rattle.changed.specs.Changes.{removes, with_setting};
ghost use Rattle.changed.specs.Numbers.{of_change};
ghost use Rattle.changed.specs.declared.change.Change.TheVariants.{Remove};
ghost use Rattle.changed.specs.declared.change.ChangeRefusal.TheVariants.{Full};

use arrayvec::CapacityError;
use card::Numbered;
use card::number::{FULL, NO_PLACE, NOT_THERE};
use thiserror::Error;

/// A change of a card's files.
#[derive(Clone, Copy, Debug, PartialEq, Eq)]
pub enum Change {
    /// The file is taken away, for good.
    Remove { file: u8 },
    /// A byte of the file gets this value.
    Set { file: u8, place: u16, byte: u8 },
}

/// What stands in the unused places of a source's changes, where nothing reads it.
impl Default for Change {
    ghost is_default = { λ unused. unused ≡ Remove 0 };

    fn default() -> Change {
        Change::Remove { file: 0 }
    }
}

impl Change {
    /// Whether it removes the file.
    pub(crate) fn removes(self, file: u8) -> bool
        ensures { result ≡ removes self file }
    {
        match self {
            Change::Remove { file: gone } => gone == file,
            Change::Set { .. } => false,
        }
    }

    /// Lays it on a part of a file that begins at a place.
    pub(crate) fn lay_on(self, file: u8, from: u16, part: &mut [u8])
        ensures { part.new ≡ with_setting self file from part.old }
    {
        let Change::Set {
            file: set,
            place,
            byte,
        } = self
        else {
            return;
        };
        if set == file && place >= from {
            // By its index: what is written through `get_mut` of a slice is known no more afterwards.
            let index = usize::from(place - from);
            if index < part.len() {
                part[index] = byte;
            }
        }
    }
}

/// Why a change is refused.
#[derive(Clone, Copy, Debug, PartialEq, Eq, Error)]
pub enum ChangeRefusal {
    /// A card has no file of this number.
    #[error("refusal {n}: there is no file {file}", n = self.number())]
    NoFile { file: u8 },
    /// No file reaches to this place.
    #[error("refusal {n}: no file has a byte at place {place}", n = self.number())]
    NoPlace { place: u16 },
    /// The source has as many changes as it takes.
    #[error("refusal {n}: there are sixteen changes already", n = self.number())]
    Full,
}

impl Numbered for ChangeRefusal {
    ghost refusal = { of_change };

    fn number(self) -> u8 {
        match self {
            ChangeRefusal::NoFile { .. } => NOT_THERE,
            ChangeRefusal::NoPlace { .. } => NO_PLACE,
            ChangeRefusal::Full => FULL,
        }
    }
}

impl From<CapacityError<Change>> for ChangeRefusal {
    ghost from_gives = { λ _ refusal. refusal ≡ Full };

    fn from(_: CapacityError<Change>) -> Self {
        Self::Full
    }
}
