//! A source of one's own, to be copied: a card that has only an EF.SOD, behind a link that is lost after so many reads.
//! docs/SOURCES.md says what a source must do; specs/Own.antt says what this one means.
ghost use Rattle.std.specs.Prelude.{◌≤◌, length};

use card::EF_SOD;
use source::{Fault, Loss, Source, well_formed};

/// A card that has only an EF.SOD, and how many reads its link still takes.
#[derive(Clone, Copy)]
pub struct OwnCard<'a> {
    pub security: &'a [u8],
    pub reads: u32,
    ghost short: { length security.now ≤ 32767 },
}

impl<'a> Source for OwnCard<'a> {
    ghost use Rattle.source_tests.specs.Own.{own_files, own_lost, own_short, OwnReads};

    ghost files = { own_files };

    ghost lost = { own_lost };

    ghost bounded = { own_short };

    ghost outcomes = { OwnReads };

    // The answers are tried in the order of the rules.
    fn read(
        &mut self,
        file: u8,
        place: u16,
        wanted: usize,
        buffer: &mut [u8],
    ) -> Result<Option<usize>, Fault> {
        if !well_formed(file, wanted, buffer) {
            return Err(Fault::Malformed);
        }
        if self.reads == 0 {
            return Err(Fault::Lost(Loss));
        }
        self.reads -= 1;
        if file != EF_SOD {
            return Ok(None);
        }
        let Some(rest) = self.security.get(usize::from(place)..) else {
            return Ok(Some(0));
        };
        let count = wanted.min(rest.len());
        buffer[..count].copy_from_slice(&rest[..count]);
        Ok(Some(count))
    }
}

#[cfg(test)]
mod tests {
    use super::*;
    use source::read_whole;
    use std::test::Fail;

    #[test]
    fn read_until_lost(rt: HostRuntime) -> Result<(), Fail> {
        let mut buffer = vec![in rt.alloc(); 0u8; 32767]?;
        let mut card = OwnCard {
            security: &[0x77, 2, 0x30, 0],
            reads: 3,
        };
        assert_eq!(rt; read_whole(&mut card, EF_SOD, &mut buffer), Ok(Some(4)));
        assert_eq!(rt; buffer[2], 0x30);
        assert_eq!(rt; card.read(0, 0, 1, &mut buffer), Ok(None));
        assert_eq!(rt; card.read(0, 0, 1, &mut buffer), Err(Fault::Lost(Loss)));
        Ok(())
    }
}
