//! Reads of a card without a run.
use crate::by_file::ByFile;
use crate::word::Reading;
use card::LONGEST;
use source::{Source, read_whole};
use std::alloc::{AllocError, Global};
use std::ops::RangeInclusive;

/// How many bytes of a file are shown.
const SHOWN: usize = 128;

/// Reads over a source, and shows what came.
pub(crate) fn read<S: Source + Drop>(
    heap: Global,
    source: S,
    reading: Reading,
) -> Result<String, AllocError> {
    match reading {
        Reading::Whole(chosen) => read_files(heap, source, chosen.files()),
        Reading::Part {
            file,
            place,
            wanted,
            room,
        } => {
            let mut source = source;
            let mut buffer = vec![in heap; 0u8; usize::from(room)]?;
            match source.read(file, place, usize::from(wanted), &mut buffer) {
                Ok(count) => shown(heap, &buffer, count),
                Err(refusal) => format!(in heap; "{refusal}"),
            }
        }
    }
}

/// Reads files whole, one after the other.
fn read_files<S: Source + Drop>(
    heap: Global,
    source: S,
    files: RangeInclusive<u8>,
) -> Result<String, AllocError> {
    let mut source = source;
    let mut buffer = vec![in heap; 0u8; usize::from(LONGEST)]?;
    let mut rows = ByFile::new(heap);
    for file in files {
        let text = match read_whole(&mut source, file, &mut buffer) {
            Ok(count) => shown(heap, &buffer, count)?,
            Err(refusal) => format!(in heap; "{refusal}")?,
        };
        rows.add(file, text)?;
    }
    rows.finish()
}

/// How many bytes came, and the first of them in hexadecimal.
fn shown(heap: Global, buffer: &[u8], count: Option<usize>) -> Result<String, AllocError> {
    let Some(count) = count else {
        return String::from_str(heap, "absent");
    };
    let unit = if count == 1 { "byte" } else { "bytes" };
    let mut text = format!(in heap; "{count} {unit}")?;
    for (index, byte) in buffer.iter().take(count).take(SHOWN).enumerate() {
        let before = if index == 0 { ": " } else { " " };
        write!(text, "{before}{byte:02X}")?;
    }
    if count > SHOWN {
        write!(text, " ..")?;
    }
    Ok(text)
}
