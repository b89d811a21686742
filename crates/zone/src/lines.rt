//! The lines of cases 9 to 20.
ghost use Rattle.std.specs.Prelude.{◌≡◌, [], ◌∷◌};
ghost use Rattle.object.specs.Readers.{rest_of};
ghost use Rattle.zone.specs.Lines.{zone_unjudged, unjudged_under, AreZoneLines};

use crate::judge::judge;
use crate::layout::{Layout, Places, Td1, Td2, Td3};
use card::{Kind, Line, Profile};
use object::Reader;

/// The lines of cases 9 to 20 of DG1.
#[derive(Clone, Copy, Debug, PartialEq, Eq)]
pub struct ZoneLines {
    pub zone: Line,
    pub characters: Line,
    pub code: Line,
    pub issuer: Line,
    pub name: Line,
    pub number: Line,
    pub nationality: Line,
    pub birth: Line,
    pub sex: Line,
    pub expiry: Line,
    pub optional: Line,
    pub composite: Line,
}

impl ZoneLines {
    // Once more by the kind: below it chooses a type, here a constant, and no value stands for both.
    /// The lines where the own cases are not judged: each is this one, but for a case 19 that does not apply under the profile.
    pub fn unjudged(line: Line, profile: Profile) -> ZoneLines
        ensures { result ≡ zone_unjudged line profile }
    {
        match profile.zone_kind() {
            Kind::Td1 => ZoneLines::unjudged_under(line, Td1::PLACES),
            Kind::Td2 => ZoneLines::unjudged_under(line, Td2::PLACES),
            Kind::Td3 => ZoneLines::unjudged_under(line, Td3::PLACES),
        }
    }

    /// The same under a layout.
    pub(crate) fn unjudged_under(line: Line, places: Places) -> ZoneLines
        ensures { result ≡ unjudged_under line places }
    {
        let optional = match places.optional {
            Some(_) => line,
            None => Line::NotApplicable,
        };
        ZoneLines {
            zone: line,
            characters: line,
            code: line,
            issuer: line,
            name: line,
            number: line,
            nationality: line,
            birth: line,
            sex: line,
            expiry: line,
            optional,
            composite: line,
        }
    }

    /// The lines in the order of their cases, 9 to 20.
    pub fn by_case(self) -> [Line; 12]
        ensures { result ≡
            self.zone ∷ self.characters ∷ self.code ∷ self.issuer ∷ self.name ∷ self.number ∷
            self.nationality ∷ self.birth ∷ self.sex ∷ self.expiry ∷ self.optional ∷
            self.composite ∷ [] }
    {
        [
            self.zone,
            self.characters,
            self.code,
            self.issuer,
            self.name,
            self.number,
            self.nationality,
            self.birth,
            self.sex,
            self.expiry,
            self.optional,
            self.composite,
        ]
    }
}

// Each layout's judge is inlined here, and all of it stays out of the caller.
/// Cases 9 to 20, over the value of DG1's template, which the reader has before it.
#[inline(never)]
pub fn zone_lines(reader: Reader<'_>, profile: Profile) -> ZoneLines
    ensures { AreZoneLines profile reader.entry.position (rest_of reader.entry) result }
{
    match profile.zone_kind() {
        Kind::Td1 => judge::<Td1>(reader),
        Kind::Td2 => judge::<Td2>(reader),
        Kind::Td3 => judge::<Td3>(reader),
    }
}
