//! The judge of the zone, written once for every layout.
ghost use Rattle.std.specs.Prelude.{◌≡◌, ◌+◌, Bool, length};
ghost use Rattle.std.specs.Fn.{FnReturnsAt};
ghost use Rattle.card.specs.Lines.{line_of};
ghost use Rattle.card.specs.declared.line.Line.TheVariants.{Pass};
ghost use Rattle.object.specs.Readers.{rest_of};
ghost use Rattle.zone.specs.Layouts.{part, Within, Checked, LawfulPlaces};
ghost use Rattle.zone.specs.Lines.{AreFieldLines, AreCharacterLines, AreLayoutLines};
ghost use Rattle.zone.specs.declared.fields.DigitField.{DigitField};
ghost use Rattle.zone.specs.Changes.{DigitChangesShow};

use crate::contents::read_zone;
use crate::fields::{DigitField, cut, first_other, is_code, is_composite, is_sex, is_state};
use crate::layout::{Layout, Places, Span};
use crate::lines::ZoneLines;
use card::Line;
use object::{Reader, Value};
use text::is_name;

/// Cases 9 to 20, over the value of DG1's template, which the reader has before it.
pub(crate) fn judge<L: Layout>(reader: Reader<'_>) -> ZoneLines
    ensures lines { AreLayoutLines L.PLACES reader.entry.position (rest_of reader.entry) result }
    ensures changes { DigitChangesShow L.PLACES (rest_of reader.entry) result }
{
    let places = L::spans();
    match read_zone(reader, places.len) {
        Some(zone) => judge_characters(zone, places),
        None => ZoneLines {
            zone: Line::Fail {
                place: reader.position,
            },
            ..ZoneLines::unjudged_under(Line::Blocked, places)
        },
    }
}

// Inlined, as `judge_fields` is: the places of each layout are then constants, and none are copied.
/// Cases 10 to 20, over a zone with its fields in these places.
#[inline(always)]
fn judge_characters(zone: Value<'_>, places: Places) -> ZoneLines
    requires lawful { LawfulPlaces places }
    requires long { length zone.bytes.now ≡ places.len }
    ensures zone { result.zone ≡ Pass }
    ensures lines { AreCharacterLines places zone.entry.place zone.entry.bytes.now result }
{
    match first_other(zone.bytes) {
        Some(other) => ZoneLines {
            zone: Line::Pass,
            characters: Line::Fail {
                place: zone.place + other,
            },
            ..ZoneLines::unjudged_under(Line::Blocked, places)
        },
        None => judge_fields(zone, places),
    }
}

/// Cases 11 to 20, over a zone with its fields in these places.
#[inline(always)]
fn judge_fields(zone: Value<'_>, places: Places) -> ZoneLines
    requires lawful { LawfulPlaces places }
    requires long { length zone.bytes.now ≡ places.len }
    ensures gates { (result.zone ≡ Pass) × (result.characters ≡ Pass) }
    ensures lines { AreFieldLines places zone.entry.place zone.entry.bytes.now result }
{
    ZoneLines {
        zone: Line::Pass,
        characters: Line::Pass,
        code: judge_part(zone, places.code, |code| is_code(code, places.passport)),
        issuer: judge_part(zone, places.issuer, is_state),
        name: judge_part(zone, places.name, is_name),
        number: judge_field(zone, places.number, DigitField::is_number),
        nationality: judge_part(zone, places.nationality, is_state),
        birth: judge_field(zone, places.birth, DigitField::is_dated),
        sex: Line::judged(is_sex(zone.bytes[places.sex]), zone.place + places.sex),
        expiry: judge_field(zone, places.expiry, DigitField::is_dated),
        optional: match places.optional {
            Some(optional) => judge_field(zone, optional, DigitField::is_optional),
            None => Line::NotApplicable,
        },
        composite: Line::judged(
            is_composite(zone.bytes, places.cover, places.composite),
            zone.place + places.composite,
        ),
    }
}

/// The line of a part of the zone, by a test of its characters.
fn judge_part<F: Fn(&[u8]) -> bool>(zone: Value<'_>, span: Span, is_right: F) -> Line
    requires within { Within (length zone.bytes.now) span }
    requires callable { F.IsAlwaysCallable is_right }
    ensures { (holds : Bool) × FnReturnsAt F.Fn is_right (part zone.entry.bytes.now span) holds
        × (result ≡ line_of holds (zone.entry.place + span.start)) }
{
    let holds = is_right(cut(zone.bytes, span));
    Line::judged(holds, zone.place + span.start)
}

/// The line of a field with a check digit, by a test of both.
fn judge_field<'a, F: Fn(DigitField<'a>) -> bool>(zone: Value<'a>, span: Span, is_right: F) -> Line
    requires checked { Checked (length zone.bytes.now) span }
    requires callable { F.IsAlwaysCallable is_right }
    ensures { (field : DigitField) × (holds : Bool) × (field.zone.now ≡ zone.entry.bytes.now)
        × (field.span ≡ span) × F.post is_right field holds
        × (result ≡ line_of holds (zone.entry.place + span.start)) }
{
    let holds = is_right(DigitField {
        zone: zone.bytes,
        span,
    });
    Line::judged(holds, zone.place + span.start)
}
