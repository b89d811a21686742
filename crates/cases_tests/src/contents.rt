//! The own cases of EF.COM and DG2 on short files.
use crate::line;
use card::Line;
use std::test::Fail;

/// The lines of cases 7 and 8 of EF.COM with these two tags, where DG1 and DG2 are declared.
fn tag_lines(first: u8, second: u8) -> Result<(Line, Line), Fail> {
    let mut bytes = *b"\x60\x14\x5f\x01\x040107\x5f\x36\x06040000\x5c\x02\x61\x75";
    bytes[20] = first;
    bytes[21] = second;
    Ok((
        line(0x0003, 7, 0, Some(&bytes))?,
        line(0x0003, 8, 0, Some(&bytes))?,
    ))
}

/// The line of a case of DG2.
fn face_line(case: u8, bytes: &[u8]) -> Result<Line, Fail> {
    line(0x0003, case, 2, Some(bytes))
}

#[test]
fn tag_lists(rt: HostRuntime) -> Result<(), Fail> {
    assert_eq!(rt; tag_lines(0x61, 0x75)?, (Line::Pass, Line::Pass));
    assert_eq!(rt; tag_lines(0x75, 0x61)?, (Line::Pass, Line::Pass));
    assert_eq!(rt;
        tag_lines(0x61, 0x61)?,
        (Line::Fail { place: 21 }, Line::Blocked)
    );
    assert_eq!(rt;
        tag_lines(0x61, 0x60)?,
        (Line::Fail { place: 21 }, Line::Blocked)
    );
    assert_eq!(rt;
        tag_lines(0x77, 0x61)?,
        (Line::Fail { place: 20 }, Line::Blocked)
    );
    assert_eq!(rt;
        tag_lines(0x61, 0x63)?,
        (Line::Pass, Line::Fail { place: 20 })
    );
    Ok(())
}

#[test]
fn face_counts(rt: HostRuntime) -> Result<(), Fail> {
    assert_eq!(rt;
        face_line(
            23,
            b"\x75\x17\x7f\x61\x14\x02\x01\x01\x7f\x60\x0e\xa1\x08\x87\x02\x01\x01\x88\x02\x00\x08\x5f\x2e\x01\xaa",
        )?,
        Line::Pass
    );
    assert_eq!(rt;
        face_line(
            21,
            b"\x75\x17\x7f\x61\x14\x02\x01\x00\x7f\x60\x0e\xa1\x08\x87\x02\x01\x01\x88\x02\x00\x08\x5f\x2e\x01\xaa",
        )?,
        Line::Fail { place: 2 }
    );
    assert_eq!(rt;
        face_line(
            21,
            b"\x75\x17\x7f\x61\x14\x02\x01\x0a\x7f\x60\x0e\xa1\x08\x87\x02\x01\x01\x88\x02\x00\x08\x5f\x2e\x01\xaa",
        )?,
        Line::Fail { place: 2 }
    );
    assert_eq!(rt;
        face_line(
            22,
            b"\x75\x17\x7f\x61\x14\x02\x01\x02\x7f\x60\x0e\xa1\x08\x87\x02\x01\x01\x88\x02\x00\x08\x5f\x2e\x01\xaa",
        )?,
        Line::Blocked
    );
    Ok(())
}

#[test]
fn face_features(rt: HostRuntime) -> Result<(), Fail> {
    assert_eq!(rt;
        face_line(
            23,
            b"\x75\x17\x7f\x61\x14\x02\x01\x01\x7f\x60\x0e\xa1\x08\x88\x02\x00\x08\x87\x02\x01\x01\x5f\x2e\x01\xaa",
        )?,
        Line::Fail { place: 11 }
    );
    assert_eq!(rt;
        face_line(
            23,
            b"\x75\x17\x7f\x61\x14\x02\x01\x01\x7f\x60\x0e\xa1\x08\x87\x02\x01\x01\x88\x02\x00\x07\x5f\x2e\x01\xaa",
        )?,
        Line::Fail { place: 11 }
    );
    Ok(())
}

#[test]
fn empty_face_block(rt: HostRuntime) -> Result<(), Fail> {
    let bytes =
        b"\x75\x16\x7f\x61\x13\x02\x01\x01\x7f\x60\x0d\xa1\x08\x87\x02\x01\x01\x88\x02\x00\x08\x5f\x2e\x00";
    assert_eq!(rt; face_line(22, bytes)?, Line::Fail { place: 8 });
    assert_eq!(rt; face_line(23, bytes)?, Line::Blocked);
    Ok(())
}
