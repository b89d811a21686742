//! The profile that a card is judged under. No profile exists that is not lawful, so nothing that takes one can refuse it.
//! Its two parts are plain numbers: the kind of zone, and a set of data groups.
ghost use Rattle.std.specs.Prelude.{◌≡◌, ◌<◌, MatchResult, IfErr};
ghost use Rattle.card.specs.Sets.{has};
ghost use Rattle.card.specs.ProfileNumbers.{LawfulProfile};

use crate::files::{EF_COM, EF_SOD};
use crate::refusal::ProfileRefusal;

/// The highest kind of zone, TD3; the lowest is 1, TD1.
const LAST_KIND: u8 = 3;

/// A kind of machine readable zone.
#[derive(Clone, Copy, Debug, PartialEq, Eq)]
pub enum Kind {
    /// Three lines of 30 characters.
    Td1,
    /// Two lines of 36 characters.
    Td2,
    /// Two lines of 44 characters.
    Td3,
}

/// The number of a kind of machine readable zone, and the data groups that the card is declared to have.
// Plain numbers: that the profile is lawful is an invariant over them. `zone_kind` has the kind by its name.
#[derive(Clone, Copy, Debug, PartialEq, Eq)]
pub struct Profile {
    kind: u8,
    declared: u16,
    ghost lawful: { LawfulProfile kind declared },
    ghost sixteen_bits: { declared < 65536 },
}

impl Profile {
    ghost use Rattle.card.specs.Refusals.{Unless, no_other};
    ghost use Rattle.card.specs.Numbers.{of_profile};
    ghost use Rattle.card.specs.declared.refusal.ProfileRefusal.TheVariants.{Unlawful};
    ghost use Rattle.card.specs.Profiles.{IsProfileOf, kind_number, declared_set, kind_of, required};

    /// The profile of a kind and a declared set, which has a bit for each data group, the lowest for DG1.
    pub fn new(kind: u8, declared: u16) -> Result<Profile, ProfileRefusal>
        ensures made { MatchResult result (IsProfileOf kind declared)
            (λ refusal. Unless 1 (LawfulProfile kind declared) no_other (of_profile refusal)) }
        ensures named { IfErr result (λ refusal. refusal ≡ Unlawful kind declared) }
    {
        if kind == 0 || kind > LAST_KIND || !has_bit(declared, 0) || !has_bit(declared, 1) {
            return Err(ProfileRefusal::Unlawful { kind, declared });
        }
        Ok(Profile { kind, declared })
    }

    /// The number of its kind of zone: TD1 has 1, TD2 has 2, TD3 has 3.
    pub fn kind(self) -> u8
        ensures { result ≡ kind_number self }
    {
        self.kind
    }

    /// The kind of zone by its name.
    pub fn zone_kind(self) -> Kind
        ensures { result ≡ kind_of self }
    {
        match self.kind {
            1 => Kind::Td1,
            2 => Kind::Td2,
            _ => Kind::Td3,
        }
    }

    /// The declared set: the lowest bit is that of DG1, the highest that of DG16.
    pub fn declared(self) -> u16
        ensures { result ≡ declared_set self }
    {
        self.declared
    }

    /// Whether a card must have this file: EF.COM, EF.SOD and each declared data group.
    pub fn required(self, file: u8) -> bool
        ensures { result ≡ required self file }
    {
        match file {
            EF_COM | EF_SOD => true,
            1..=16 => has_bit(self.declared, file - 1),
            _ => false,
        }
    }
}

/// Whether a bit of a set is set.
fn has_bit(set: u16, bit: u8) -> bool
    requires { bit < 16 }
    ensures { result ≡ has set bit }
{
    (set >> bit) & 1 == 1
}
