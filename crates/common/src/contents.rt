//! What EF.COM's template holds (case 4).
ghost use Rattle.std.specs.Prelude.{MatchOption};
ghost use Rattle.object.specs.Readers.{rest_of};
ghost use Rattle.common.specs.Contents.{HoldsCommon, FoundCommon};

use object::{Reader, Value};

/// The tag of the version of the data structure.
const VERSION: u16 = 0x5F01;

/// The tag of the version of Unicode.
const UNICODE: u16 = 0x5F36;

/// The tag of the list of data group tags.
const TAGS: u16 = 0x5C;

/// The values of the three objects.
#[derive(Clone, Copy)]
pub(crate) struct Contents<'a> {
    pub version: Value<'a>,
    pub unicode: Value<'a>,
    pub tags: Value<'a>,
}

/// The contents of the template's value, which the reader has before it; `None` exactly if it does not hold the three
/// objects in their order and no more.
pub(crate) fn read_contents(mut reader: Reader<'_>) -> Option<Contents<'_>>
    ensures { MatchOption result (HoldsCommon (rest_of reader.entry) → ⊥)
        (FoundCommon reader.entry.position (rest_of reader.entry)) }
{
    Some(Contents {
        version: reader.take(VERSION)?,
        unicode: reader.take(UNICODE)?,
        tags: reader.only(TAGS)?,
    })
}
