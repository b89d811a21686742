//! The image: a card's files in memory, field after field: three bytes for a file's number and length, and the file.
//! The link to them is never lost.
ghost use Rattle.std.specs.Prelude.{◌≡◌, ◌<◌, ◌≤◌, ◌++◌, false, length, take, drop, MatchResult};
ghost use Rattle.std.specs.Option.{option_map};
ghost use Rattle.std.specs.Iterator.{at_most};
ghost use Rattle.card.specs.Cards.{files_at};
ghost use Rattle.source.specs.Reads.{request, Answers};
ghost use Rattle.image.specs.Checks.{Starts, ImageOf, Refuses, Checks, StandsFor, image_files, image_short};
ghost use Rattle.image.specs.Counts.{full_count, answer_of, ImageReads};
ghost use Rattle.image.specs.Numbers.{of_image};

use card::number::MALFORMED_IMAGE;
use card::{CardFiles, EF_SOD, FILES, LONGEST, Numbered};
use source::{Fault, Source, well_formed};
use thiserror::Error;

/// How many bytes stand before a field's file: its number and its length.
const HEADER: usize = 3;

/// A field of a row.
#[derive(Clone, Copy)]
struct StoredField<'a> {
    number: u8,
    content: &'a [u8],
}

/// The fields of a row, up to the first that is cut off or too long.
#[derive(Clone, Copy)]
struct Fields<'a> {
    row: &'a [u8],
}

impl<'a> Iterator for Fields<'a> {
    type Item = StoredField<'a>;

    ghost next_gives = { λ s result t. Starts s.row.now result t.row.now };

    ghost remaining = { λ s. at_most (length s.row.now) };

    fn next(&mut self) -> Option<StoredField<'a>> {
        let [number, high, low, tail @ ..] = self.row else {
            return None;
        };
        let size = usize::from(*high) * 256 + usize::from(*low);
        if size > usize::from(LONGEST) {
            return None;
        }
        let (content, rest) = tail.split_at_checked(size)?;
        self.row = rest;
        Some(StoredField {
            number: *number,
            content,
        })
    }
}

/// Why bytes are no image.
#[derive(Clone, Copy, Debug, PartialEq, Eq, Error)]
pub enum ImageRefusal {
    /// Its first broken field starts here.
    #[error("refusal {n}: the field at {position} breaks", n = self.number())]
    Malformed { position: usize },
}

impl Numbered for ImageRefusal {
    ghost refusal = { of_image };

    fn number(self) -> u8 {
        match self {
            ImageRefusal::Malformed { .. } => MALFORMED_IMAGE,
        }
    }
}

/// A card's files in memory.
#[derive(Clone, Copy)]
pub struct Image<'a> {
    row: &'a [u8],
}

impl<'a> TryFrom<&'a [u8]> for Image<'a> {
    type Error = ImageRefusal;

    ghost try_from_gives = { λ bytes result. Checks bytes.now result };

    fn try_from(bytes: &'a [u8]) -> Result<Image<'a>, ImageRefusal> {
        files_of(bytes)?;
        Ok(Image { row: bytes })
    }
}

/// The files of the image that the bytes are, or where its first broken field starts; in one pass over the fields.
pub fn files_of(bytes: &[u8]) -> Result<CardFiles<'_>, ImageRefusal>
    ensures { MatchResult result (λ files. ImageOf bytes.now (files_at files.by_number))
        (λ refusal. Refuses bytes.now refusal) }
{
    let mut by_number = [None; FILES];
    let mut position = 0;
    let mut lowest = 0;
    for field in (Fields { row: bytes }) {
        if field.number < lowest || field.number > EF_SOD {
            return Err(ImageRefusal::Malformed { position });
        }
        by_number[usize::from(field.number)] = Some(field.content);
        lowest = field.number + 1;
        position += HEADER + field.content.len();
    }
    if position < bytes.len() {
        return Err(ImageRefusal::Malformed { position });
    }
    Ok(CardFiles { by_number })
}

impl<'a> Image<'a> {
    /// The image that the bytes are, or where its first broken field starts: `try_from` by the word of the rules.
    pub fn check(bytes: &'a [u8]) -> Result<Image<'a>, ImageRefusal>
        ensures { Checks bytes.now result }
    {
        Image::try_from(bytes)
    }

    /// The image over any bytes; it has no files where they are no image.
    pub fn over(bytes: &'a [u8]) -> Image<'a>
        ensures { StandsFor bytes.now (image_files result) }
    {
        Image::check(bytes).unwrap_or(Image { row: &[] })
    }

    /// A file, if it is there.
    pub fn file(&self, file: u8) -> Option<&'a [u8]>
        ensures { option_map (λ x. x.now) result ≡ image_files self.now file }
    {
        Fields { row: self.row }
            .find(|field| field.number == file)
            .map(|field| field.content)
    }

    /// Answers a well-formed read with as many bytes as `most` and the file allow.
    pub(crate) fn answer(
        &self,
        file: u8,
        place: u16,
        most: usize,
        buffer: &mut [u8],
    ) -> Option<usize>
        requires some { 0 < most }
        requires room { most ≤ length buffer.old }
        ensures answers { Answers (image_files self.now file) (request file place most) result
            buffer.old buffer.new }
        ensures told { result ≡ answer_of (image_files self.now file) place most }
    {
        let bytes = self.file(file)?;
        Some(copy_part(bytes, usize::from(place), most, buffer))
    }
}

/// Copies as many bytes from a place on as `most` and the file allow to the buffer's start, and says how many.
fn copy_part(bytes: &[u8], place: usize, most: usize, buffer: &mut [u8]) -> usize
    requires some { 0 < most }
    requires room { most ≤ length buffer.old }
    ensures count { result ≡ full_count bytes.now place most }
    ensures copied { buffer.new ≡ take result (drop place bytes.now) ++ drop result buffer.old }
{
    let Some(rest) = bytes.get(place..) else {
        return 0;
    };
    let count = most.min(rest.len());
    buffer[..count].copy_from_slice(&rest[..count]);
    count
}

impl<'a> Source for Image<'a> {
    ghost files = { image_files };

    ghost lost = { λ _. false };

    ghost bounded = { image_short };

    ghost outcomes = { ImageReads };

    fn read(
        &mut self,
        file: u8,
        place: u16,
        wanted: usize,
        buffer: &mut [u8],
    ) -> Result<Option<usize>, Fault> {
        if !well_formed(file, wanted, buffer) {
            return Err(Fault::Malformed);
        }
        Ok(self.answer(file, place, wanted, buffer))
    }
}
