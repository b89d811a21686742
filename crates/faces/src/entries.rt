//! Cases 22 and 23, entry by entry: which objects an entry holds, and what stands in its header.
ghost use Rattle.std.specs.Prelude.{◌↔◌, true, IsTrue, MatchResult};
ghost use Rattle.std.specs.Fn.{FnReturnsAt};
ghost use Rattle.object.specs.Readers.{rest_of};
ghost use Rattle.faces.specs.Rows.{AllTagged, Each, FirstFailing};
ghost use Rattle.faces.specs.Faces.{Entry, Described};

use crate::features::are_lawful;
use crate::group::ENTRY;
use object::Reader;

/// The tag of an entry's header, which holds the features.
const HEADER: u16 = 0xA1;

/// The tag of an entry's face block.
const BLOCK: u16 = 0x5F2E;

/// An entry that fails a test: where it starts, and where its value does.
#[derive(Clone, Copy)]
pub struct FailingEntry {
    pub start: usize,
    pub value: usize,
}

/// Tests the value of each entry; `Ok` exactly if all of them pass, else the first entry whose value fails.
pub(crate) fn check_entries<F: Fn(&[u8]) -> bool>(
    mut entries: Reader<'_>,
    passes: F,
) -> Result<(), FailingEntry>
    requires callable { F.IsAlwaysCallable passes }
    requires tagged { AllTagged 0x7F60 (rest_of entries) }
    ensures { let bytes = rest_of entries.entry in MatchResult result
        (λ _. Each 0x7F60 (λ v. FnReturnsAt F.Fn passes v true) bytes)
        (FirstFailing 0x7F60 (FnReturnsAt F.Fn passes) entries.entry.position bytes) }
{
    let mut start = entries.position;
    while let Some(value) = entries.take(ENTRY) {
        if !passes(value.bytes) {
            return Err(FailingEntry {
                start,
                value: value.place,
            });
        }
        start = entries.position;
    }
    Ok(())
}

/// Case 22: whether an entry's value is a header and a face block that is not empty.
pub(crate) fn is_entry(value: &[u8]) -> bool
    ensures { IsTrue result ↔ Entry value.now }
{
    let mut reader = Reader::new(value);
    reader.take(HEADER).is_some()
        && reader
            .only(BLOCK)
            .is_some_and(|block| !block.bytes.is_empty())
}

/// Case 23: whether an entry's value begins with a header whose features are lawful.
pub(crate) fn is_described(value: &[u8]) -> bool
    ensures { IsTrue result ↔ Described value.now }
{
    Reader::new(value)
        .take(HEADER)
        .is_some_and(|header| are_lawful(header.bytes))
}
