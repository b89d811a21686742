//! Cases 1 to 3 and 24 on short files.
use crate::line;
use card::{Line, Profile};
use cases::write_verdict;
use sheet::Sheet;
use std::test::Fail;

/// A set that declares DG1, DG2, DG13 and DG15.
const DECLARED: u16 = 0x5003;

/// The line of case 2, and that of case 3, of a file that is there.
fn template(file: u8, bytes: &[u8]) -> Result<Line, Fail> {
    line(DECLARED, 2, file, Some(bytes))
}

fn tiling(file: u8, bytes: &[u8]) -> Result<Line, Fail> {
    line(DECLARED, 3, file, Some(bytes))
}

/// The line of case 24.
fn single(content: Option<&[u8]>) -> Result<Line, Fail> {
    line(DECLARED, 24, 17, content)
}

#[test]
fn templates(rt: HostRuntime) -> Result<(), Fail> {
    assert_eq!(rt; template(13, &[0x6d, 0x00])?, Line::Pass);
    assert_eq!(rt; template(13, &[0x6d, 0x80])?, Line::Fail { place: 1 });
    assert_eq!(rt;
        template(13, &[0x6d, 0x01, 0x00, 0x00])?,
        Line::Fail { place: 3 }
    );
    assert_eq!(rt; template(13, &[0x6d, 0x02, 0x00])?, Line::Fail { place: 3 });
    assert_eq!(rt; template(13, &[])?, Line::Fail { place: 0 });
    assert_eq!(rt; template(13, &[0x6e, 0x00])?, Line::Fail { place: 0 });
    assert_eq!(rt; template(13, &[0x6d])?, Line::Fail { place: 1 });
    assert_eq!(rt; template(13, &[0x6d, 0x81, 0x7f])?, Line::Fail { place: 1 });
    Ok(())
}

#[test]
fn tilings(rt: HostRuntime) -> Result<(), Fail> {
    assert_eq!(rt; tiling(15, &[0x6f, 0x00])?, Line::Pass);
    assert_eq!(rt; tiling(15, &[0x6f, 0x02, 0x30, 0x00])?, Line::Pass);
    assert_eq!(rt;
        tiling(15, &[0x6f, 0x02, 0x30, 0x01])?,
        Line::Fail { place: 2 }
    );
    assert_eq!(rt;
        tiling(15, &[0x6f, 0x04, 0x30, 0x02, 0x04, 0x01])?,
        Line::Fail { place: 4 }
    );
    assert_eq!(rt;
        tiling(15, &[0x6f, 0x03, 0x04, 0x00, 0x00])?,
        Line::Fail { place: 4 }
    );
    assert_eq!(rt;
        tiling(15, &[0x6f, 0x04, 0x1f, 0x80, 0x00, 0x00])?,
        Line::Fail { place: 2 }
    );
    assert_eq!(rt;
        tiling(15, &[0x6f, 0x05, 0x30, 0x01, 0xff, 0x04, 0x7f])?,
        Line::Fail { place: 4 }
    );
    assert_eq!(rt; tiling(13, &[0x6d, 0x01, 0x00])?, Line::NotApplicable);
    Ok(())
}

#[test]
fn presence(rt: HostRuntime) -> Result<(), Fail> {
    assert_eq!(rt; line(DECLARED, 1, 15, None)?, Line::Fail { place: 0 });
    assert_eq!(rt; line(DECLARED, 3, 15, None)?, Line::Blocked);
    assert_eq!(rt; line(DECLARED, 1, 3, None)?, Line::Pass);
    assert_eq!(rt; line(DECLARED, 2, 3, None)?, Line::NotApplicable);
    let surplus: &[u8] = &[0x63, 0x00];
    assert_eq!(rt;
        line(DECLARED, 1, 3, Some(surplus))?,
        Line::Fail { place: 0 }
    );
    assert_eq!(rt; line(DECLARED, 2, 3, Some(surplus))?, Line::Blocked);
    let mut sheet = Sheet::new();
    assert!(rt; !write_verdict(&mut sheet, 18, None, Profile::new(3, DECLARED)?));
    assert_eq!(rt; sheet.line(1, 17), Some(Line::Open));
    Ok(())
}

#[test]
fn security_objects(rt: HostRuntime) -> Result<(), Fail> {
    assert_eq!(rt; single(Some(&[0x77, 0x02, 0x30, 0x00]))?, Line::Pass);
    assert_eq!(rt; single(Some(&[0x77, 0x00]))?, Line::Fail { place: 2 });
    assert_eq!(rt;
        single(Some(&[0x77, 0x04, 0x30, 0x00, 0x30, 0x00]))?,
        Line::Fail { place: 2 }
    );
    assert_eq!(rt; single(Some(&[0x77, 0x02, 0x30, 0x01]))?, Line::Blocked);
    assert_eq!(rt; single(None)?, Line::Blocked);
    Ok(())
}
