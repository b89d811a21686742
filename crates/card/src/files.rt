//! The files of a card by number: EF.COM has 0, each data group its own number from 1 to 16, EF.SOD 17.
//! A file goes by its number, and not by an enum: an image writes the number, and whoever asks for one may ask for any.
//! Nothing here looks into a file.
ghost use Rattle.std.specs.Prelude.{◌≡◌, ◌<◌, ◌≤◌, length, MatchOption};
ghost use Rattle.std.specs.Option.{option_map};
ghost use Rattle.card.specs.Cards.{template_tag_of, files_at};
ghost use Rattle.card.specs.Purposes.{purpose_of};

/// The file number of EF.COM, the lowest.
pub const EF_COM: u8 = 0;

/// The file number of DG1, which has the machine readable zone.
pub const DG1: u8 = 1;

/// The file number of DG2, which has the faces.
pub const DG2: u8 = 2;

/// The file number of EF.SOD, the highest.
pub const EF_SOD: u8 = 17;

/// How many bytes a file has at most.
pub const LONGEST: u16 = 32767;

/// How many files a card has at most.
pub const FILES: usize = 18;

/// The template tag of each file, in the order of the file numbers.
pub const TEMPLATE_TAGS: [u8; FILES] = [
    0x60, 0x61, 0x75, 0x63, 0x76, 0x65, 0x66, 0x67, 0x68, 0x69, 0x6a, 0x6b, 0x6c, 0x6d, 0x6e, 0x6f,
    0x70, 0x77,
];

/// What a file is for: it settles how the file is judged, and what a record writes into it.
#[derive(Clone, Copy, Debug, PartialEq, Eq)]
pub enum Purpose {
    /// EF.COM: two versions, and the tags of the declared data groups.
    Common,
    /// DG1: the machine readable zone.
    Zone,
    /// DG2: the faces.
    Faces,
    /// A data group of any objects, which may hold others.
    Trees,
    /// DG13: any bytes.
    Free,
    /// EF.SOD: one object, in which hashes and signatures stand.
    Security,
}

/// The purpose of each file, in the order of the file numbers.
pub const PURPOSES: [Purpose; FILES] = [
    Purpose::Common,
    Purpose::Zone,
    Purpose::Faces,
    Purpose::Trees,
    Purpose::Trees,
    Purpose::Trees,
    Purpose::Trees,
    Purpose::Trees,
    Purpose::Trees,
    Purpose::Trees,
    Purpose::Trees,
    Purpose::Trees,
    Purpose::Trees,
    Purpose::Free,
    Purpose::Trees,
    Purpose::Trees,
    Purpose::Trees,
    Purpose::Security,
];

/// The template tag of a file; `None` exactly if there is no file of this number.
pub fn template_tag(file: u8) -> Option<u8>
    ensures { MatchOption result (17 < file) (λ tag. (file ≤ 17) × (tag ≡ template_tag_of file)) }
{
    TEMPLATE_TAGS.get(usize::from(file)).copied()
}

/// What a file is for; `None` exactly if there is no file of this number.
pub fn file_purpose(file: u8) -> Option<Purpose>
    ensures { MatchOption result (17 < file) (λ is. (file ≤ 17) × (is ≡ purpose_of file)) }
{
    PURPOSES.get(usize::from(file)).copied()
}

/// The files of a card where they stand in memory, by their numbers.
#[derive(Clone, Copy)]
pub struct CardFiles<'a> {
    pub by_number: [Option<&'a [u8]>; FILES],
    ghost all: { length by_number ≡ 18 },
}

impl<'a> CardFiles<'a> {
    /// A file, if it is there.
    pub fn get(&self, file: u8) -> Option<&'a [u8]>
        ensures { option_map (λ x. x.now) result ≡ files_at self.now.by_number file }
    {
        *self.by_number.get(usize::from(file))?
    }
}
