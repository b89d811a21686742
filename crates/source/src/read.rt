//! What a source of card files means, by ghost members, and what one read of it may answer.
//! Every source is proved against this one contract, and what reads a source is proved from it alone.
ghost use Rattle.std.specs.Prelude.{◌≡◌, ℕ, Bool, true, ◌↔◌, IsTrue};
ghost use Rattle.card.specs.Cards.{Files, Short};
ghost use Rattle.source.specs.Reads.{Request, request, Answer, WellFormed, Reads, ChosenLoss};
ghost use Rattle.source.specs.Numbers.{of_fault};

use card::number::{LOST, MALFORMED_READ};
use card::{EF_SOD, Numbered};
use thiserror::Error;

/// How many bytes one read can want at most.
pub const MOST_WANTED: usize = 255;

/// What is known of a lost link: no more than that it is lost.
#[derive(Clone, Copy, Debug, PartialEq, Eq)]
pub struct Loss;

/// Why a read is refused.
#[derive(Clone, Copy, Debug, PartialEq, Eq, Error)]
pub enum Fault {
    /// The link is lost.
    #[error("refusal {n}: the link is lost", n = self.number())]
    Lost(Loss),
    /// No read that a source may take: see `well_formed`.
    #[error("refusal {n}: the read is malformed", n = self.number())]
    Malformed,
}

impl Numbered for Fault {
    ghost refusal = { of_fault };

    fn number(self) -> u8 {
        match self {
            Fault::Lost(_) => LOST,
            Fault::Malformed => MALFORMED_READ,
        }
    }
}

/// A source of a card's files over a link that can be lost.
pub trait Source {
    /// The files of the card, by their numbers.
    ghost files: { Self → Files };

    /// Whether the link is lost.
    ghost lost: { Self → Bool };

    /// No file is too long.
    ghost bounded: { (s : Self) (f : ℕ) → Short (files s f) };

    /// What one well-formed read may answer, and what it makes of the source itself.
    ghost outcomes: { Self → Request → Answer → Self → Type 0 };

    /// Reads at most `wanted` bytes of a file from a place on to the buffer's start: `None` where the card has no such file,
    /// else how many bytes stand there, 0 where the file has no byte at the place. The source chooses how many, and when its link is lost.
    fn read(
        &mut self,
        file: u8,
        place: u16,
        wanted: usize,
        buffer: &mut [u8],
    ) -> Result<Option<usize>, Fault>
        ensures files { files self.new ≡ files self.old }
        ensures lasts { lost self.old ≡ true → lost self.new ≡ true }
        ensures reads { Reads (files self.old file) (request file place wanted) result
            buffer.old buffer.new }
        ensures loss { ChosenLoss (lost self.old) (lost self.new) result }
        ensures outcomes { let asked = request file place wanted in
            WellFormed asked buffer.old → outcomes self.old asked result self.new }
        ensures still { (WellFormed (request file place wanted) buffer.old → ⊥)
            → self.new ≡ self.old };
}

/// Whether a source may take such a read, from whatever place.
pub fn well_formed(file: u8, wanted: usize, buffer: &[u8]) -> bool
    ensures { IsTrue result ↔ WellFormed (request file 0 wanted) buffer.now }
{
    file <= EF_SOD && wanted > 0 && wanted <= MOST_WANTED && wanted <= buffer.len()
}
