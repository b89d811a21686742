//! The lines of cases 4 to 8.
ghost use Rattle.std.specs.Prelude.{◌≡◌, [], ◌∷◌};
ghost use Rattle.object.specs.Readers.{rest_of};
ghost use Rattle.common.specs.Lines.{common_unjudged, AreCommonLines};

use crate::contents::{Contents, read_contents};
use crate::tags::{TagLines, tag_lines};
use card::{Line, Profile};
use object::Reader;

/// The lines of cases 4 to 8 of EF.COM.
#[derive(Clone, Copy, Debug, PartialEq, Eq)]
pub struct CommonLines {
    pub contents: Line,
    pub version: Line,
    pub unicode: Line,
    pub tags: Line,
    pub declared: Line,
}

impl CommonLines {
    /// The lines where the own cases are not judged: each is this one.
    pub fn unjudged(line: Line) -> CommonLines
        ensures { result ≡ common_unjudged line }
    {
        CommonLines {
            contents: line,
            version: line,
            unicode: line,
            tags: line,
            declared: line,
        }
    }

    /// The lines in the order of the cases.
    pub fn by_case(self) -> [Line; 5]
        ensures { result ≡
            self.contents ∷ self.version ∷ self.unicode ∷ self.tags ∷ self.declared ∷ [] }
    {
        [
            self.contents,
            self.version,
            self.unicode,
            self.tags,
            self.declared,
        ]
    }
}

/// Cases 4 to 8, over the value of EF.COM's template, which the reader has before it.
pub fn common_lines(reader: Reader<'_>, profile: Profile) -> CommonLines
    ensures { AreCommonLines profile reader.entry.position (rest_of reader.entry) result }
{
    let Some(
        Contents {
            version,
            unicode,
            tags,
        },
    ) = read_contents(reader)
    else {
        return CommonLines {
            contents: Line::Fail {
                place: reader.position,
            },
            ..CommonLines::unjudged(Line::Blocked)
        };
    };
    let TagLines { tags, declared } = tag_lines(tags, profile);
    CommonLines {
        contents: Line::Pass,
        version: Line::judged(version.bytes == b"0107".as_slice(), version.place),
        unicode: Line::judged(unicode.bytes == b"040000".as_slice(), unicode.place),
        tags,
        declared,
    }
}
