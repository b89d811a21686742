//! What refusals have in common, and why two numbers make no profile.
ghost use Rattle.std.specs.Prelude.{◌≡◌};
ghost use Rattle.card.specs.Refusals.{Refusal};
ghost use Rattle.card.specs.Numbers.{of_profile};

use crate::number::NO_PROFILE;
use thiserror::Error;

/// A refusal with a number, by which whoever compares two sheets knows it.
pub trait Numbered {
    /// Its number and the values that come with it.
    ghost refusal: { Self → Refusal };

    /// The refusal's number.
    fn number(self) -> u8
        ensures { result ≡ (refusal self).number };
}

/// Why two numbers make no profile.
#[derive(Clone, Copy, Debug, PartialEq, Eq, Error)]
pub enum ProfileRefusal {
    /// The kind is not from 1 to 3, or the declared set lacks DG1 or DG2.
    #[error("refusal {n}: there is no profile of kind {kind} with the set {declared:04X}", n = self.number())]
    Unlawful { kind: u8, declared: u16 },
}

impl Numbered for ProfileRefusal {
    ghost refusal = { of_profile };

    fn number(self) -> u8 {
        match self {
            ProfileRefusal::Unlawful { .. } => NO_PROFILE,
        }
    }
}
