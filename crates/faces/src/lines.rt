//! The lines of cases 21 to 23, of which each waits for the one before.
ghost use Rattle.std.specs.Prelude.{◌≡◌, [], ◌∷◌};
ghost use Rattle.object.specs.Readers.{rest_of};
ghost use Rattle.faces.specs.Faces.{faces_unjudged, AreFaceLines};

use crate::entries::{check_entries, is_described, is_entry};
use crate::group::find_entries;
use card::Line;
use object::Reader;

/// The lines of cases 21 to 23 of DG2.
#[derive(Clone, Copy, Debug, PartialEq, Eq)]
pub struct FaceLines {
    pub group: Line,
    pub entries: Line,
    pub features: Line,
}

impl FaceLines {
    /// The lines where the own cases are not judged: each is this one.
    pub fn unjudged(line: Line) -> FaceLines
        ensures { result ≡ faces_unjudged line }
    {
        FaceLines {
            group: line,
            entries: line,
            features: line,
        }
    }

    /// The lines in the order of the cases.
    pub fn by_case(self) -> [Line; 3]
        ensures { result ≡ self.group ∷ self.entries ∷ self.features ∷ [] }
    {
        [self.group, self.entries, self.features]
    }
}

/// Cases 21 to 23, over the value of DG2's template, which the reader has before it.
pub fn face_lines(reader: Reader<'_>) -> FaceLines
    ensures { AreFaceLines reader.entry.position (rest_of reader.entry) result }
{
    let Some(entries) = find_entries(reader) else {
        return FaceLines {
            group: Line::Fail {
                place: reader.position,
            },
            ..FaceLines::unjudged(Line::Blocked)
        };
    };
    if let Err(entry) = check_entries(entries, is_entry) {
        return FaceLines {
            group: Line::Pass,
            entries: Line::Fail { place: entry.start },
            ..FaceLines::unjudged(Line::Blocked)
        };
    }
    let features = match check_entries(entries, is_described) {
        Ok(()) => Line::Pass,
        Err(entry) => Line::Fail { place: entry.value },
    };
    FaceLines {
        group: Line::Pass,
        entries: Line::Pass,
        features,
    }
}
