//! Whether a field of the zone is right, alone or with its check digit.
ghost use Rattle.std.specs.Prelude.{◌≡◌, ◌<◌, ◌↔◌, length, IsTrue, MatchOption, slice_index};
ghost use Rattle.text.specs.Characters.{ZoneCharacter};
ghost use Rattle.zone.specs.Layouts.{part, Within, Checked};
ghost use Rattle.zone.specs.Fields.{ZoneCharacters, FirstOther, Code, State, RightDigit, Number, Dated, Sex, Optional, Composite};

use crate::layout::{Cover, Span};
use text::{check_digit, composite_digit, is_date, is_filled};

// The bound of one slice: a struct of the zone and a span that has it would be this slice under another name.
/// The characters of a span.
pub(crate) fn cut(zone: &[u8], span: Span) -> &[u8]
    requires { Within (length zone.now) span }
    ensures { result.now ≡ part zone.now span }
{
    let Span { start, end } = span;
    &zone[start..end]
}

/// The index of the first byte that is no letter, digit or filler; `None` exactly if there is none.
pub(crate) fn first_other(zone: &[u8]) -> Option<usize>
    ensures { MatchOption result (ZoneCharacters zone.now) (FirstOther zone.now) }
{
    if is_clean(zone) {
        return None;
    }
    zone.iter()
        .position(|character| !is_zone_character(*character))
}

// No early end, so that many characters are tested at once.
/// Whether the zone is made of letters, digits and fillers.
fn is_clean(zone: &[u8]) -> bool
    ensures { IsTrue result ↔ ZoneCharacters zone.now }
{
    let mut clean = true;
    for character in zone {
        clean &= is_zone_character(*character);
    }
    clean
}

/// Whether the character is a letter, a digit or a filler.
fn is_zone_character(character: u8) -> bool
    ensures { IsTrue result ↔ ZoneCharacter character }
{
    matches!(character, b'A'..=b'Z' | b'0'..=b'9' | b'<')
}

/// Whether the field is the code of a passport, or that of a card, which is not a visa's.
pub(crate) fn is_code(field: &[u8], passport: bool) -> bool
    ensures { IsTrue result ↔ Code passport field.now }
{
    match field {
        [b'P', b'A'..=b'Z' | b'<'] => passport,
        [b'A' | b'C' | b'I', b'A'..=b'U' | b'W'..=b'Z' | b'<'] => !passport,
        _ => false,
    }
}

/// Whether the field is an issuer or a nationality: three letters, or fillers in place of the last or the last two.
pub(crate) fn is_state(field: &[u8]) -> bool
    ensures { IsTrue result ↔ State field.now }
{
    matches!(
        field,
        [b'A'..=b'Z', b'<', b'<'] | [b'A'..=b'Z', b'A'..=b'Z', b'A'..=b'Z' | b'<']
    )
}

/// Whether the character is a sex.
pub(crate) fn is_sex(character: u8) -> bool
    ensures { IsTrue result ↔ Sex character }
{
    matches!(character, b'M' | b'F' | b'<')
}

/// A field of a zone with its check digit right behind it.
#[derive(Clone, Copy)]
pub(crate) struct DigitField<'a> {
    pub zone: &'a [u8],
    pub span: Span,
    ghost checked: { Checked (length zone.now) span },
}

impl<'a> DigitField<'a> {
    /// Its characters.
    fn characters(self) -> &'a [u8]
        ensures { result.now ≡ part self.entry.zone.now self.entry.span }
    {
        cut(self.zone, self.span)
    }

    /// The character behind it, which is its check digit.
    fn digit(self) -> u8
        ensures { result ≡ slice_index self.entry.zone.now self.entry.span.end }
    {
        self.zone[self.span.end]
    }

    /// Whether its check digit is right.
    fn has_right_digit(self) -> bool
        ensures { IsTrue result ↔ RightDigit self.entry.zone.now self.entry.span }
    {
        self.digit() == check_digit(self.characters()) + b'0'
    }

    /// Whether it is a number, and its check digit right.
    pub(crate) fn is_number(self) -> bool
        ensures { IsTrue result ↔ Number self.entry.zone.now self.entry.span }
    {
        self.zone[self.span.start] != b'<' && self.has_right_digit()
    }

    /// Whether it is a date, and its check digit right.
    pub(crate) fn is_dated(self) -> bool
        ensures { IsTrue result ↔ Dated self.entry.zone.now self.entry.span }
    {
        is_date(self.characters()) && self.has_right_digit()
    }

    /// Whether its check digit is right, or a filler behind a field of fillers.
    pub(crate) fn is_optional(self) -> bool
        ensures { IsTrue result ↔ Optional self.entry.zone.now self.entry.span }
    {
        self.has_right_digit() || self.digit() == b'<' && is_filled(self.characters())
    }
}

// Inlined into the judge of each layout, where the lengths of the covered parts are known.
/// Whether the composite, which stands at this index, is right.
#[inline(always)]
pub(crate) fn is_composite(zone: &[u8], cover: Cover, index: usize) -> bool
    requires within { Within (length zone.now) cover.first
        × Within (length zone.now) cover.second × Within (length zone.now) cover.third }
    requires index_in_bounds { index < length zone.now }
    ensures { IsTrue result ↔ Composite zone.now cover index }
{
    let digit = composite_digit(
        cut(zone, cover.first),
        cut(zone, cover.second),
        cut(zone, cover.third),
    );
    zone[index] == digit + b'0'
}
