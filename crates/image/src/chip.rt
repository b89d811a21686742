//! The chip: an image behind a link that takes a number of commands and gives a few bytes at a time.
ghost use Rattle.std.specs.Prelude.{◌≡◌};
ghost use Rattle.image.specs.Checks.{image_files};
ghost use Rattle.image.specs.Counts.{chip_files, chip_short, span_of, commands_of, is_spent, ChipReads};

use crate::image::Image;
use source::{Fault, Loss, Source, well_formed};

/// The smallest span: a chip gives at least so many bytes of those that are left.
const LEAST_SPAN: u8 = 1;

/// An image behind a link: a read takes a command and brings at most `span` bytes (1 for 0). With no command the link is lost.
#[derive(Clone, Copy)]
pub struct Chip<'a> {
    image: Image<'a>,
    span: u8,
    commands: u32,
}

impl<'a> Chip<'a> {
    /// A chip over an image. A span of 0 is taken as 1; a chip that is given no command has a lost link from the start.
    pub fn new(image: Image<'a>, span: u8, commands: u32) -> Chip<'a>
        ensures files { chip_files result ≡ image_files image.entry }
        ensures span { span_of result ≡ span }
        ensures commands { commands_of result ≡ commands }
    {
        Chip {
            image,
            span,
            commands,
        }
    }
}

impl<'a> Source for Chip<'a> {
    ghost files = { chip_files };

    ghost lost = { is_spent };

    ghost bounded = { chip_short };

    ghost outcomes = { ChipReads };

    fn read(
        &mut self,
        file: u8,
        place: u16,
        wanted: usize,
        buffer: &mut [u8],
    ) -> Result<Option<usize>, Fault> {
        if !well_formed(file, wanted, buffer) {
            return Err(Fault::Malformed);
        }
        if self.commands == 0 {
            return Err(Fault::Lost(Loss));
        }
        self.commands -= 1;
        let most = usize::from(self.span.max(LEAST_SPAN)).min(wanted);
        Ok(self.image.answer(file, place, most, buffer))
    }
}
