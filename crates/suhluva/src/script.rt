//! What a script has laid out so far, and what each of its words does.
use crate::by_file::FileName;
use crate::calls::Calls;
use crate::layers::{Below, Layers};
use crate::reading;
use crate::word::{Call, FORMS, Reading, Word};
use anyhow::{bail, ensure};
use card::{EF_SOD, Profile};
use cases::worked_rows;
use changed::change::Change;
use image::{Chip, Image, files_of};
use run::perform;
use sheet::LINES;
use std::alloc::Global;
use std::fs;

/// A card, its profile, what it is read over, and the run that is open.
#[derive(Drop)]
pub(crate) struct Script {
    heap: Global,
    card: Option<Vec<u8>>,
    profile: Option<Profile>,
    below: Below,
    layers: Layers,
    run: Option<Calls>,
}

impl Script {
    /// No card and no profile yet; what comes is read from the image itself.
    pub(crate) fn new(heap: Global) -> Script {
        Script {
            heap,
            card: None,
            profile: None,
            below: Below::Image,
            layers: Layers::new(heap),
            run: None,
        }
    }

    /// Does what a line says, and tells what came of it.
    pub(crate) fn answer(&mut self, rt: &HostRuntime, line: &str) -> anyhow::Result<String> {
        if let Some(text) = line.strip_prefix('#') {
            return Ok(String::from_str(self.heap, text.trim())?);
        }
        if line.is_empty() {
            return Ok(String::new(self.heap));
        }
        let word = Word::parse(self.heap, line)?;
        let text = self.act(rt, word)?;
        let gap = if text.starts_with('\n') { "" } else { " " };
        Ok(format!(in self.heap; "{line}:{gap}{text}")?)
    }

    /// Does what a word says.
    fn act(&mut self, rt: &HostRuntime, word: Word) -> anyhow::Result<String> {
        match word {
            Word::Card(bytes) => self.take_card(bytes),
            Word::CardFile(name) => self.take_file(rt, &name),
            Word::Profile { kind, declared } => self.take_profile(kind, declared),
            Word::Source(below) => self.take_source(below),
            Word::Remove { file } => self.remove(file),
            Word::Set { file, place, bytes } => self.set(file, place, &bytes),
            Word::Layer => self.go_up(),
            Word::Read(reading) => self.read(reading),
            Word::Open => self.open(),
            Word::Call(call) => self.call(call),
            Word::Rows => self.count_rows(),
            Word::Help => self.help(),
        }
    }

    /// The card in a file.
    fn take_file(&mut self, rt: &HostRuntime, name: &str) -> anyhow::Result<String> {
        self.run = None;
        self.card = None;
        match fs::read(rt, name) {
            Ok(bytes) => self.take_card(bytes),
            Err(error) => bail!("{name} cannot be read, and no card is taken: {error}"),
        }
    }

    /// A card without changes, if its bytes are an image.
    fn take_card(&mut self, bytes: Vec<u8>) -> anyhow::Result<String> {
        self.run = None;
        self.card = None;
        self.layers = Layers::new(self.heap);
        let files = match files_of(&bytes) {
            Ok(files) => files,
            Err(refusal) => return Ok(format!(in self.heap; "{refusal}; no card is taken")?),
        };
        let mut text = format!(in self.heap; "an image of {} bytes with", bytes.len())?;
        let mut has_file = false;
        for file in 0..=EF_SOD {
            if let Some(content) = files.get(file) {
                write!(text, " {} ({}),", FileName { file }, content.len())?;
                has_file = true;
            }
        }
        let rest = if has_file {
            "and no other file"
        } else {
            "no file"
        };
        write!(text, " {rest}")?;
        self.card = Some(bytes);
        Ok(text)
    }

    /// A profile, if there is one of these numbers.
    fn take_profile(&mut self, kind: u8, declared: u16) -> anyhow::Result<String> {
        self.run = None;
        self.profile = None;
        let profile = match Profile::new(kind, declared) {
            Ok(profile) => profile,
            Err(refusal) => return Ok(format!(in self.heap; "{refusal}; no profile is taken")?),
        };
        self.profile = Some(profile);
        let mut text = format!(in self.heap; "TD{kind} with")?;
        for file in 0..=EF_SOD {
            if profile.required(file) {
                write!(text, " {},", FileName { file })?;
            }
        }
        write!(text, " and no other file")?;
        Ok(text)
    }

    /// What reads the card, below the changes.
    fn take_source(&mut self, below: Below) -> anyhow::Result<String> {
        self.run = None;
        self.below = below;
        match below {
            Below::Image => Ok(String::from_str(self.heap, "the image itself, without a chip")?),
            Below::Chip { span, commands } => {
                let most = span.max(1);
                Ok(format!(in self.heap;
                    "a chip; bytes to a command: at most {most}; commands until its link is lost: {commands}"
                )?)
            }
        }
    }

    /// A file removed.
    fn remove(&mut self, file: u8) -> anyhow::Result<String> {
        match self.layers.add(Change::Remove { file })? {
            Ok(()) => {
                self.run = None;
                Ok(format!(in self.heap; "{} is removed", FileName { file })?)
            }
            Err(refusal) => Ok(format!(in self.heap; "{refusal}")?),
        }
    }

    /// Bytes set from a place on, up to the first that is refused.
    fn set(&mut self, file: u8, place: u16, bytes: &[u8]) -> anyhow::Result<String> {
        let mut text = String::new(self.heap);
        for (place, byte) in (place..=u16::MAX).zip(bytes) {
            let byte = *byte;
            let gap = if text.is_empty() { "" } else { "; " };
            match self.layers.add(Change::Set { file, place, byte })? {
                Ok(()) => {
                    self.run = None;
                    write!(text, "{gap}place {place} is set to {byte:02X}")?;
                }
                Err(refusal) => {
                    write!(text, "{gap}{refusal}")?;
                    break;
                }
            }
        }
        Ok(text)
    }

    /// A second layer of changes.
    fn go_up(&mut self) -> anyhow::Result<String> {
        ensure!(self.layers.go_up(), "there are two layers already");
        self.run = None;
        Ok(String::from_str(self.heap, "further changes lie over those so far")?)
    }

    /// Reads over a source made anew.
    fn read(&self, reading: Reading) -> anyhow::Result<String> {
        let Some(card) = &self.card else {
            bail!("there is no card");
        };
        let image = Image::over(card);
        match self.below {
            Below::Image => Ok(reading::read(self.heap, self.layers.over(image)?, reading)?),
            Below::Chip { span, commands } => {
                let chip = Chip::new(image, span, commands);
                Ok(reading::read(self.heap, self.layers.over(chip)?, reading)?)
            }
        }
    }

    /// A new run.
    fn open(&mut self) -> anyhow::Result<String> {
        self.run = None;
        ensure!(self.card.is_some(), "there is no card");
        ensure!(self.profile.is_some(), "there is no profile");
        self.run = Some(Calls::new(self.heap));
        Ok(format!(in self.heap; "a new run, {LINES} lines, all open")?)
    }

    /// Calls on the run that is open: makes all its calls anew, from the opening on, and tells what came of the latest.
    fn call(&mut self, call: Call) -> anyhow::Result<String> {
        let (Some(card), Some(profile), Some(calls)) = (&self.card, self.profile, &mut self.run)
        else {
            bail!("no run is open");
        };
        calls.add(call)?;
        let image = Image::over(card);
        match self.below {
            Below::Image => {
                let _ = perform(self.layers.over(image)?, profile, &mut calls.steps);
            }
            Below::Chip { span, commands } => {
                let chip = Chip::new(image, span, commands);
                let _ = perform(self.layers.over(chip)?, profile, &mut calls.steps);
            }
        }
        Ok(calls.told(self.heap, call)?)
    }

    /// The worked rows.
    fn count_rows(&self) -> anyhow::Result<String> {
        let rows = worked_rows();
        Ok(format!(in self.heap; "{rows} worked rows follow from the definitions")?)
    }

    /// How each word is written.
    fn help(&self) -> anyhow::Result<String> {
        let mut text = String::new(self.heap);
        for form in FORMS {
            write!(text, "\n  {form}")?;
        }
        Ok(text)
    }
}

#[cfg(test)]
mod tests {
    use super::*;
    use samples::TD3_CARD;
    use std::test::Fail;

    #[test]
    fn cards_in_files(rt: HostRuntime) -> Result<(), Fail> {
        let mut script = Script::new(rt.alloc());
        fs::write(&rt, "passport.image", TD3_CARD.as_slice())?;
        fs::write(&rt, "cut.image", &TD3_CARD[..157])?;
        assert_eq!(rt;
            script.answer(&rt, "card file passport.image")?.as_str(),
            "card file passport.image: an image of 158 bytes with EF.COM (22), DG1 (93), DG2 (25), EF.SOD (6), and no other file"
        );
        assert_eq!(rt;
            script.answer(&rt, "card file cut.image")?.as_str(),
            "card file cut.image: refusal 8: the field at 149 breaks; no card is taken"
        );
        Ok(())
    }

    #[test]
    fn lines_in_error(rt: HostRuntime) -> Result<(), Fail> {
        let mut script = Script::new(rt.alloc());
        for (line, said) in [
            ("jugde DG1", "there is no word jugde; help lists all"),
            ("judge", "write judge FILE|all [ROOM]"),
            ("judge DG17", "there is no DG17"),
            (
                "judge 256",
                "256 is neither a file's name nor a number up to 255",
            ),
            ("ask 1.5 DG1", "1.5 is no number, or too large"),
            (
                "profile 3 DG1",
                "DG1 is no set of up to four hexadecimal digits",
            ),
            (
                "card file",
                "write card td1|td2|td3|old_face|empty, or card file NAME, or card bytes HEX ..",
            ),
            ("set DG1 58", "write set FILE PLACE HEX .."),
            ("read DG1", "there is no card"),
            ("open", "there is no card"),
            ("close", "no run is open"),
        ] {
            match script.answer(&rt, line) {
                Ok(_) => return Err(Fail::new("answered")),
                Err(error) => assert_eq!(rt; error.to_string(rt.alloc())?.as_str(), said),
            }
        }
        Ok(())
    }
}
