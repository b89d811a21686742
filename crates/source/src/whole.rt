//! Reading a whole file, from a source that may answer in small pieces and may lose its link on the way.
//! A short answer is not the end: reading goes on until nothing comes, the file is absent, or it can have no more bytes.
ghost use Rattle.std.specs.Prelude.{◌≡◌, ℕ, ◌≤◌, true, length};
ghost use Rattle.source.specs.Whole.{Ready, Wholly, WholeLoss, WholeNames};
ghost use Rattle.source.specs.Outcomes.{ReadsWhole};
ghost use Rattle.source.specs.Numbers.{of_whole};

use crate::read::{Fault, Loss, MOST_WANTED, Source};
use card::number::{LOST, NOT_THERE, SHORT_BUFFER};
use card::{EF_SOD, LONGEST, Numbered};
use thiserror::Error;

/// Why a file is not read whole.
#[derive(Clone, Copy, Debug, PartialEq, Eq, Error)]
pub enum WholeRefusal {
    /// A card has no file of this number.
    #[error("refusal {n}: there is no file {file}", n = self.number())]
    NoFile { file: u8 },
    /// The longest file would not fit into a buffer of this size.
    #[error("refusal {n}: a buffer of {size} bytes is too short", n = self.number())]
    ShortBuffer { size: usize },
    /// The link is lost; so many bytes of the file stand at the buffer's start.
    #[error("refusal {n}: the link is lost after {received} bytes", n = self.number())]
    Lost { received: u16, loss: Loss },
}

impl Numbered for WholeRefusal {
    ghost refusal = { of_whole };

    fn number(self) -> u8 {
        match self {
            WholeRefusal::NoFile { .. } => NOT_THERE,
            WholeRefusal::ShortBuffer { .. } => SHORT_BUFFER,
            WholeRefusal::Lost { .. } => LOST,
        }
    }
}

/// Reads a whole file to the buffer's start, and says how many bytes it has; `None` where it is absent.
pub fn read_whole<S: Source>(
    source: &mut S,
    file: u8,
    buffer: &mut [u8],
) -> Result<Option<usize>, WholeRefusal>
    ensures files { S.files source.new ≡ S.files source.old }
    ensures lasts { S.lost source.old ≡ true → S.lost source.new ≡ true }
    ensures wholly { Wholly (S.files source.old file) file result buffer.old buffer.new }
    ensures loss { WholeLoss (S.lost source.old) (S.lost source.new) result }
    ensures named { WholeNames file buffer.old result }
    ensures outcome { Ready file buffer.old
        → ReadsWhole S.outcomes file source.old result source.new }
    ensures still { (Ready file buffer.old → ⊥) → source.new ≡ source.old }
{
    if file > EF_SOD {
        return Err(WholeRefusal::NoFile { file });
    }
    if buffer.len() < usize::from(LONGEST) {
        return Err(WholeRefusal::ShortBuffer { size: buffer.len() });
    }
    // Grows by what each read brought: at most 255 bytes, so the cast keeps the count.
    let mut have: u16 = 0;
    while have < LONGEST {
        let wanted = usize::from(LONGEST - have).min(MOST_WANTED);
        match source.read(file, have, wanted, &mut buffer[usize::from(have)..]) {
            Ok(None) => return Ok(None),
            Ok(Some(count)) if count == 0 => return Ok(Some(usize::from(have))),
            Ok(Some(count)) => have += count as u16,
            Err(Fault::Lost(loss)) => return Err(WholeRefusal::Lost {
                received: have,
                loss,
            }),
            Err(Fault::Malformed) => unreachable(),
        }
    }
    Ok(Some(usize::from(have)))
}
