//! Why a call on a run is refused.
ghost use Rattle.std.specs.Prelude.{◌≡◌};
ghost use Rattle.run.specs.Numbers.{of_judge, of_ask, of_close};
ghost use Rattle.run.specs.declared.refusal.JudgeRefusal.TheVariants.{Unread};

use card::Numbered;
use card::number::{CLOSED, NOT_THERE, UNJUDGED};
use source::WholeRefusal;
use thiserror::Error;

/// Why a judge is refused.
#[derive(Clone, Copy, Debug, PartialEq, Eq, Error)]
pub enum JudgeRefusal {
    /// A close was accepted.
    #[error("refusal {n}: a close was accepted before", n = self.number())]
    Closed,
    /// The file is not read whole.
    #[error(transparent)]
    Unread(WholeRefusal),
}

impl From<WholeRefusal> for JudgeRefusal {
    ghost from_gives = { λ refusal r. r ≡ Unread refusal };

    fn from(refusal: WholeRefusal) -> JudgeRefusal {
        JudgeRefusal::Unread(refusal)
    }
}

impl Numbered for JudgeRefusal {
    ghost refusal = { of_judge };

    fn number(self) -> u8 {
        match self {
            JudgeRefusal::Closed => CLOSED,
            JudgeRefusal::Unread(refusal) => refusal.number(),
        }
    }
}

/// Why an ask is refused.
#[derive(Clone, Copy, Debug, PartialEq, Eq, Error)]
pub enum AskRefusal {
    /// There is no line of this case for this file.
    #[error("refusal {n}: there is no line of case {case} for file {file}", n = self.number())]
    NoLine { case: u8, file: u8 },
}

impl Numbered for AskRefusal {
    ghost refusal = { of_ask };

    fn number(self) -> u8 {
        match self {
            AskRefusal::NoLine { .. } => NOT_THERE,
        }
    }
}

/// Why a close is refused.
#[derive(Clone, Copy, Debug, PartialEq, Eq, Error)]
pub enum CloseRefusal {
    /// A close was accepted.
    #[error("refusal {n}: a close was accepted before", n = self.number())]
    Closed,
    /// A file was not judged; this is the lowest.
    #[error("refusal {n}: file {file} is not judged", n = self.number())]
    Unjudged { file: u8 },
}

impl Numbered for CloseRefusal {
    ghost refusal = { of_close };

    fn number(self) -> u8 {
        match self {
            CloseRefusal::Closed => CLOSED,
            CloseRefusal::Unjudged { .. } => UNJUDGED,
        }
    }
}
