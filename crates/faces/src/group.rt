//! Case 21: the template holds one group of faces, in which a count stands before as many entries.
ghost use Rattle.std.specs.Prelude.{◌↔◌, ℕ, IsTrue, MatchOption};
ghost use Rattle.object.specs.Readers.{rest_of};
ghost use Rattle.faces.specs.Rows.{Row};
ghost use Rattle.faces.specs.Groups.{IsCount, Grouped, Found};

use object::Reader;

/// The tag of the group, which is all that the template holds.
const GROUP: u16 = 0x7F61;

/// The tag of the count of the faces.
const COUNT: u16 = 0x02;

/// The tag of an entry, one for each face.
pub(crate) const ENTRY: u16 = 0x7F60;

/// The smallest count.
const LEAST_FACES: u8 = 1;

/// The greatest count.
const MOST_FACES: u8 = 9;

/// A reader at the entries, if case 21 holds of what the reader has before it; `None` exactly if it does not.
pub(crate) fn find_entries(reader: Reader<'_>) -> Option<Reader<'_>>
    ensures { MatchOption result (Grouped (rest_of reader.entry) → ⊥) (Found reader.entry) }
{
    let group = reader.only(GROUP)?;
    let mut inside = Reader::starting(reader.bytes, group.place);
    let count = read_count(inside.take(COUNT)?.bytes)?;
    is_row(inside, ENTRY, count).then_some(inside)
}

/// The count, if the value is one byte from 1 to 9; `None` exactly if it is not.
fn read_count(value: &[u8]) -> Option<u8>
    ensures { MatchOption result ((k : ℕ) → IsCount value.now k → ⊥) (IsCount value.now) }
{
    match value {
        [count @ LEAST_FACES..=MOST_FACES] => Some(*count),
        _ => None,
    }
}

/// Whether the reader has exactly so many objects of this tag before it.
fn is_row(mut reader: Reader<'_>, tag: u16, count: u8) -> bool
    ensures { IsTrue result ↔ Row tag count (rest_of reader.entry) }
{
    for _ in 0..count {
        if reader.take(tag).is_none() {
            return false;
        }
    }
    reader.is_done()
}
