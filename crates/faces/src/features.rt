//! The features of a face, which stand in its entry's header: objects that a list allows, each with a greater tag than
//! the one before it. The owner and the format of the face block are among them.
ghost use Rattle.std.specs.Prelude.{◌↔◌, IsTrue};
ghost use Rattle.object.specs.Readers.{rest_of};
ghost use Rattle.faces.specs.Rising.{feature_list, Allows, Listed, RisingFeatures, Has, LawfulFeatures};

use object::Reader;

/// A feature that a header may hold: its tag, and the least and the greatest length of its value.
#[derive(Clone, Copy)]
pub struct Feature {
    pub tag: u16,
    pub least: usize,
    pub most: usize,
}

impl Feature {
    /// Whether the feature has this tag, and its value may have this length.
    fn allows(self, tag: u16, length: usize) -> bool
        ensures { IsTrue result ↔ Allows self tag length }
    {
        self.tag == tag && (self.least..=self.most).contains(&length)
    }
}

/// The tag of the owner of the face block's format.
const OWNER: u16 = 0x87;

/// The tag of the face block's format.
const FORMAT: u16 = 0x88;

/// The owner that a header must name.
const FACE_OWNER: [u8; 2] = [0x01, 0x01];

/// The format that a header must name.
const FACE_FORMAT: [u8; 2] = [0x00, 0x08];

/// The features that a header may hold.
const FEATURES: [Feature; 8] = [
    Feature {
        tag: 0x80,
        least: 2,
        most: 2,
    },
    Feature {
        tag: 0x81,
        least: 1,
        most: 3,
    },
    Feature {
        tag: 0x82,
        least: 1,
        most: 1,
    },
    Feature {
        tag: 0x83,
        least: 7,
        most: 7,
    },
    Feature {
        tag: 0x85,
        least: 8,
        most: 8,
    },
    Feature {
        tag: 0x86,
        least: 2,
        most: 2,
    },
    Feature {
        tag: OWNER,
        least: 2,
        most: 2,
    },
    Feature {
        tag: FORMAT,
        least: 2,
        most: 2,
    },
];

/// Whether a header's value is lawful: features in rising order, with the owner and the format that a face block has.
pub(crate) fn are_lawful(bytes: &[u8]) -> bool
    ensures { IsTrue result ↔ LawfulFeatures bytes.now }
{
    let reader = Reader::new(bytes);
    are_rising(reader) && has(reader, OWNER, &FACE_OWNER) && has(reader, FORMAT, &FACE_FORMAT)
}

/// Whether the reader has features before it, in rising order of tags and none twice.
fn are_rising(mut reader: Reader<'_>) -> bool
    ensures { IsTrue result ↔ RisingFeatures feature_list 0 (rest_of reader.entry) }
{
    let mut last = 0;
    while let Some(object) = reader.next() {
        let tag = object.tag();
        if tag <= last || !is_listed(tag, object.value().len()) {
            return false;
        }
        last = tag;
    }
    reader.is_done()
}

/// Whether one of the objects that the reader has before it has this tag and value.
fn has(mut reader: Reader<'_>, tag: u16, value: &[u8]) -> bool
    ensures { IsTrue result ↔ Has (rest_of reader.entry) tag value.now }
{
    while let Some(object) = reader.next() {
        if object.tag() == tag && object.value() == value {
            return true;
        }
    }
    false
}

/// Whether a feature of the list has this tag, and its value may have this length.
fn is_listed(tag: u16, length: usize) -> bool
    ensures { IsTrue result ↔ Listed feature_list tag length }
{
    FEATURES.iter().any(|feature| feature.allows(tag, length))
}
