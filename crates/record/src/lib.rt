//! Records: what is meant to be loaded on a card, the files that it writes, and what these have to do with the lines of a sheet.
//! The laws stand in `specs/`; nothing here is called by a program.
#![tactic(auto)]

ghost use Rattle.record.specs.Laws.{StructureLaws, CommonLaws};
ghost use Rattle.record.specs.CardLaws.{CardLaws};
ghost use Rattle.record.specs.Samples.{SampleRecords};

/// No line of a data group of trees, of DG13 or of EF.SOD fails exactly when some part writes the file, and one part only.
fn structure_laws() -> u8
    ensures { StructureLaws }
{
    0
}

/// No line of EF.COM fails exactly when some order of the declared tags writes it, and one order of one set only.
fn common_laws() -> u8
    ensures { CommonLaws }
{
    0
}

/// No line of a card fails where some record of the profile writes its files, which one record alone can; elsewhere
/// some line does. Where a digit of such a card's zone is replaced by another, at a checked place, a line fails under
/// every profile.
fn card_laws() -> u8
    ensures { CardLaws }
{
    0
}

/// Six records, at least one for each layout, write the cards that stand there byte by byte.
fn sample_records() -> u8
    ensures { SampleRecords }
{
    0
}

#[cfg(test)]
mod tests {
    use super::{card_laws, common_laws, sample_records, structure_laws};

    #[test]
    fn laws_hold(rt: HostRuntime) {
        assert_eq!(rt; structure_laws(), 0);
        assert_eq!(rt; common_laws(), 0);
        assert_eq!(rt; card_laws(), 0);
        assert_eq!(rt; sample_records(), 0);
    }
}
