//! Texts of files: a row for each file, or for neighbours with the same text.
use card::{EF_COM, EF_SOD};
use std::alloc::{AllocError, Global};
use std::fmt;

/// A file, by its name.
#[derive(Clone, Copy)]
pub(crate) struct FileName {
    pub(crate) file: u8,
}

impl fmt::Display for FileName {
    fn fmt<W: fmt::Write>(&self, f: &mut fmt::Formatter<W>) -> fmt::Result {
        match self.file {
            EF_COM => write!(f, "EF.COM"),
            EF_SOD => write!(f, "EF.SOD"),
            group if group < EF_SOD => write!(f, "DG{group}"),
            other => write!(f, "file {other}"),
        }
    }
}

/// The rows that have ended, and the one that the next file may join.
#[derive(Drop)]
pub(crate) struct ByFile {
    ended: String,
    first: u8,
    last: u8,
    text: String,
}

impl ByFile {
    /// No row.
    pub(crate) fn new(heap: Global) -> ByFile {
        ByFile {
            ended: String::new(heap),
            first: 0,
            last: 0,
            text: String::new(heap),
        }
    }

    /// The next file with its text, which is not empty.
    pub(crate) fn add(&mut self, file: u8, text: String) -> Result<(), AllocError> {
        if self.text != text {
            self.end()?;
            self.first = file;
            self.text = text;
        }
        self.last = file;
        Ok(())
    }

    /// All rows, each behind a line end.
    pub(crate) fn finish(mut self) -> Result<String, AllocError> {
        self.end()?;
        let ByFile { ended, .. } = self;
        Ok(ended)
    }

    /// Ends the row that files joined so far.
    fn end(&mut self) -> Result<(), AllocError> {
        let first = FileName { file: self.first };
        let last = FileName { file: self.last };
        if self.text.is_empty() {
            Ok(())
        } else if self.first == self.last {
            write!(self.ended, "\n  {first}: {}", self.text)
        } else {
            write!(self.ended, "\n  {first} to {last}: {}", self.text)
        }
    }
}
