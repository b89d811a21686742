//! What DG1's template holds (case 9).
ghost use Rattle.std.specs.Prelude.{MatchOption};
ghost use Rattle.object.specs.Readers.{rest_of};
ghost use Rattle.zone.specs.Contents.{HoldsZone, FoundZone};

use object::{Reader, Value};

/// The tag of the zone.
const ZONE: u16 = 0x5F1F;

/// The zone in the template's value, which the reader has before it; `None` exactly if it does not hold one zone of so
/// many characters and no more.
pub(crate) fn read_zone(reader: Reader<'_>, len: usize) -> Option<Value<'_>>
    ensures { MatchOption result (HoldsZone len (rest_of reader.entry) → ⊥)
        (FoundZone reader.entry.position len (rest_of reader.entry)) }
{
    let zone = reader.only(ZONE)?;
    if zone.bytes.len() != len {
        return None;
    }
    Some(zone)
}
