//! Whether objects tile a range at every level, in one walk through the bytes and without memory of its own.
//! An object and a list of objects are read by two functions that call each other; the remaining levels fall.
ghost use Rattle.std.specs.Prelude.{◌<◌, ◌≤◌, length, drop, MatchResult};
ghost use Rattle.object.specs.Trees.{Tiled, TiledOnce, First, NowhereTiled};
ghost use Rattle.object.specs.Readers.{rest_of, Step};

use crate::object::Object;
use crate::reader::Reader;
use card::Failure;

// Beside `read_objects`, which its like calls: this one also says that no other trees write the bytes.
/// Whether objects tile what the reader has to read, on at most so many levels; else the smallest place at which an object is broken.
pub fn tile(reader: Reader<'_>, levels: u8) -> Result<(), Failure>
    ensures { MatchResult result (λ _. TiledOnce levels (rest_of reader.entry))
        (λ broken. NowhereTiled levels reader.entry.position (rest_of reader.entry) broken.place) }
{
    read_objects(reader.bytes, reader.position, levels)
}

/// Reads one object with all that is in it, on at most so many levels.
#[cycle(read_object_read_objects)]
fn read_object(reader: &mut Reader<'_>, levels: u8) -> Result<(), Failure>
    requires { reader.old.position < length reader.old.bytes.now }
    ensures { MatchResult result (λ _. Step levels reader.old reader.new)
        (λ broken. First levels reader.old.position (rest_of reader.old) broken.place) }
{
    let failure = Failure {
        place: reader.position,
    };
    if levels == 0 {
        return Err(failure);
    }
    let Some(object) = reader.next() else {
        return Err(failure);
    };
    match object {
        Object::Plain { .. } => Ok(()),
        Object::Nested { place, value, .. } => {
            let (range, _) = reader.bytes.split_at(place + value.len());
            read_objects(range, place, levels - 1)
        }
    }
}

/// Reads the objects of a range, from the position on, with all that is in them, on at most so many levels.
#[cycle(read_object_read_objects)]
fn read_objects(bytes: &[u8], position: usize, levels: u8) -> Result<(), Failure>
    requires { position ≤ length bytes.now }
    ensures { MatchResult result (λ _. Tiled levels (drop position bytes.now))
        (λ broken. First levels position (drop position bytes.now) broken.place) }
{
    let mut reader = Reader::at(bytes, position);
    while reader.position < reader.bytes.len() {
        read_object(&mut reader, levels)?;
    }
    Ok(())
}
