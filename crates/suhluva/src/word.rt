//! The words of a script.
use crate::layers::Below;
use anyhow::{bail, ensure};
use card::{DG1, EF_COM, EF_SOD, LONGEST};
use samples::{OLD_FACE_CARD, TD1_CARD, TD2_CARD, TD3_CARD};
use std::alloc::Global;
use std::ops::RangeInclusive;
use std::str::FromStr;

/// How each word is written, with what it needs.
pub(crate) const FORMS: [&str; 15] = [
    "card td1|td2|td3|old_face|empty, or card file NAME, or card bytes HEX ..",
    "profile KIND SET",
    "source image, or source chip SPAN COMMANDS",
    "set FILE PLACE HEX ..",
    "remove FILE",
    "layer",
    "read FILE|all, or read FILE PLACE WANTED [ROOM]",
    "open",
    "judge FILE|all [ROOM]",
    "ask CASE FILE",
    "failing",
    "lines",
    "close",
    "rows",
    "help",
];

/// One file, or all of them.
#[derive(Clone, Copy)]
pub(crate) enum Chosen {
    One(u8),
    All,
}

impl Chosen {
    /// The files, by number.
    pub(crate) fn files(self) -> RangeInclusive<u8> {
        match self {
            Chosen::One(file) => file..=file,
            Chosen::All => 0..=EF_SOD,
        }
    }
}

/// Reads without a run.
#[derive(Clone, Copy)]
pub(crate) enum Reading {
    /// Files whole.
    Whole(Chosen),
    /// One read, into a buffer of so many bytes.
    Part {
        file: u8,
        place: u16,
        wanted: u16,
        room: u16,
    },
}

/// Calls on the run that is open.
#[derive(Clone, Copy)]
pub(crate) enum Call {
    /// Judge files, each into a buffer of so many bytes.
    Judge { chosen: Chosen, room: u16 },
    /// Ask for a line.
    Ask { case: u8, file: u8 },
    /// Ask for every line, and tell those that fail.
    Failing,
    /// Ask for every line, and tell all.
    Lines,
    /// Close the run.
    Close,
}

/// What a line of a script says.
#[derive(Drop)]
pub(crate) enum Word {
    /// These bytes are the card's image.
    Card(Vec<u8>),
    /// The bytes in this file are.
    CardFile(String),
    /// The profile of runs.
    Profile {
        kind: u8,
        declared: u16,
    },
    /// What reads the card.
    Source(Below),
    /// A file is removed.
    Remove {
        file: u8,
    },
    /// Bytes of a file are set, from a place on.
    Set {
        file: u8,
        place: u16,
        bytes: Vec<u8>,
    },
    /// Further changes lie over those so far.
    Layer,
    /// Read without a run.
    Read(Reading),
    /// Open a run.
    Open,
    /// Call on it.
    Call(Call),
    /// How many worked rows are proved.
    Rows,
    /// How each word is written.
    Help,
}

impl Word {
    /// What a line says.
    pub(crate) fn parse(heap: Global, line: &str) -> anyhow::Result<Word> {
        let words: Vec<&str> = line.split_whitespace().collect(heap)?;
        match words.as_slice() {
            ["card", "file", name] => Ok(Word::CardFile(String::from_str(heap, name)?)),
            ["card", "bytes", digits @ ..] => Ok(Word::Card(bytes(heap, digits)?)),
            ["card", name] if *name != "file" => Ok(Word::Card(Vec::from_slice(
                heap,
                sample(name)?,
            )?)),
            ["profile", kind, declared] => Ok(Word::Profile {
                kind: number(kind)?,
                declared: declared_set(declared)?,
            }),
            ["source", "image"] => Ok(Word::Source(Below::Image)),
            ["source", "chip", span, commands] => Ok(Word::Source(Below::Chip {
                span: number(span)?,
                commands: number(commands)?,
            })),
            ["remove", file] => Ok(Word::Remove {
                file: file_number(file)?,
            }),
            ["set", file, place, digits @ ..] if !digits.is_empty() => Ok(Word::Set {
                file: file_number(file)?,
                place: number(place)?,
                bytes: bytes(heap, digits)?,
            }),
            ["layer"] => Ok(Word::Layer),
            ["open"] => Ok(Word::Open),
            ["rows"] => Ok(Word::Rows),
            ["help"] => Ok(Word::Help),
            ["read", ..] => Ok(Word::Read(Reading::parse(&words)?)),
            _ => Ok(Word::Call(Call::parse(&words)?)),
        }
    }
}

impl Reading {
    /// What the words say after `read`.
    fn parse(words: &[&str]) -> anyhow::Result<Reading> {
        match words {
            [_, file] => Ok(Reading::Whole(files_chosen(file)?)),
            [_, file, place, wanted] => Reading::part(file, place, wanted, "255"),
            [_, file, place, wanted, room] => Reading::part(file, place, wanted, room),
            _ => misread(words),
        }
    }

    /// One read.
    fn part(file: &str, place: &str, wanted: &str, room: &str) -> anyhow::Result<Reading> {
        Ok(Reading::Part {
            file: file_number(file)?,
            place: number(place)?,
            wanted: number(wanted)?,
            room: number(room)?,
        })
    }
}

impl Call {
    /// What the words say to the run that is open.
    fn parse(words: &[&str]) -> anyhow::Result<Call> {
        match words {
            ["judge", file] => Ok(Call::Judge {
                chosen: files_chosen(file)?,
                room: LONGEST,
            }),
            ["judge", file, room] => Ok(Call::Judge {
                chosen: files_chosen(file)?,
                room: number(room)?,
            }),
            ["ask", case, file] => Ok(Call::Ask {
                case: number(case)?,
                file: file_number(file)?,
            }),
            ["failing"] => Ok(Call::Failing),
            ["lines"] => Ok(Call::Lines),
            ["close"] => Ok(Call::Close),
            _ => misread(words),
        }
    }
}

/// That the words say nothing: how the first is written, if there is such a word.
fn misread<T>(words: &[&str]) -> anyhow::Result<T> {
    let first = words.first().copied().unwrap_or("");
    for form in FORMS {
        if form.split(' ').next() == Some(first) {
            bail!("write {form}");
        }
    }
    bail!("there is no word {first}; help lists all")
}

/// The image of a sample card.
fn sample(name: &str) -> anyhow::Result<&'static [u8]> {
    match name {
        "td1" => Ok(TD1_CARD),
        "td2" => Ok(TD2_CARD),
        "td3" => Ok(TD3_CARD),
        "old_face" => Ok(OLD_FACE_CARD),
        "empty" => Ok(b""),
        _ => bail!("there is no sample card {name}"),
    }
}

/// A file by its number or its name, or all.
fn files_chosen(word: &str) -> anyhow::Result<Chosen> {
    if word == "all" {
        return Ok(Chosen::All);
    }
    Ok(Chosen::One(file_number(word)?))
}

/// A file's name, or a number, which no file need have.
fn file_number(word: &str) -> anyhow::Result<u8> {
    if word == "EF.COM" {
        return Ok(EF_COM);
    }
    if word == "EF.SOD" {
        return Ok(EF_SOD);
    }
    if let Some(group) = word.strip_prefix("DG") {
        let file = number(group)?;
        ensure!(DG1 <= file && file < EF_SOD, "there is no {word}");
        return Ok(file);
    }
    match word.parse::<u8>() {
        Ok(file) => Ok(file),
        Err(_) => bail!("{word} is neither a file's name nor a number up to 255"),
    }
}

/// A number in decimal.
fn number<T: FromStr>(word: &str) -> anyhow::Result<T>
where
    T::Err: Drop,
{
    match word.parse::<T>() {
        Ok(number) => Ok(number),
        Err(_) => bail!("{word} is no number, or too large"),
    }
}

/// A declared set, in hexadecimal.
fn declared_set(word: &str) -> anyhow::Result<u16> {
    match u16::from_str_radix(word, 16) {
        Ok(declared) => Ok(declared),
        Err(_) => bail!("{word} is no set of up to four hexadecimal digits"),
    }
}

/// Bytes in hexadecimal; each word has two digits for each byte.
fn bytes(heap: Global, words: &[&str]) -> anyhow::Result<Vec<u8>> {
    let mut bytes = Vec::new(heap);
    for word in words {
        match hex::decode(heap, *word) {
            Ok(part) => bytes.extend_from_slice(&part)?,
            Err(error) => bail!("{word}: {error}"),
        }
    }
    Ok(bytes)
}
