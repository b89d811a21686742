//! What refusals say.
use changed::Changed;
use image::{Chip, Image};
use source::{Source, read_whole};
use std::alloc::{AllocError, Global};
use std::error::Error;
use std::test::Fail;

/// What the refusal says, nothing where there is none.
fn text<T: Drop, E: Error + Drop>(
    outcome: Result<T, E>,
    alloc: Global,
) -> Result<String, AllocError> {
    match outcome {
        Ok(_) => Ok(String::new(alloc)),
        Err(refusal) => format!(in alloc; "{refusal}"),
    }
}

#[test]
fn reads(rt: HostRuntime) -> Result<(), Fail> {
    let mut buffer = [0; 1];
    let mut chip = Chip::new(Image::over(&[]), 1, 0);
    assert_eq!(rt;
        text(chip.read(18, 0, 1, &mut buffer), rt.alloc())?.as_str(),
        "refusal 7: the read is malformed"
    );
    assert_eq!(rt;
        text(chip.read(1, 0, 1, &mut buffer), rt.alloc())?.as_str(),
        "refusal 6: the link is lost"
    );
    Ok(())
}

#[test]
fn whole_files(rt: HostRuntime) -> Result<(), Fail> {
    let mut short = [0; 9];
    let mut buffer = vec![in rt.alloc(); 0u8; 32767]?;
    let mut chip = Chip::new(Image::over(&[1, 0, 1, 7]), 1, 1);
    assert_eq!(rt;
        text(read_whole(&mut chip, 18, &mut short), rt.alloc())?.as_str(),
        "refusal 2: there is no file 18"
    );
    assert_eq!(rt;
        text(read_whole(&mut chip, 1, &mut short), rt.alloc())?.as_str(),
        "refusal 3: a buffer of 9 bytes is too short"
    );
    assert_eq!(rt;
        text(read_whole(&mut chip, 1, &mut buffer), rt.alloc())?.as_str(),
        "refusal 6: the link is lost after 1 bytes"
    );
    Ok(())
}

#[test]
fn images_and_changes(rt: HostRuntime) -> Result<(), Fail> {
    assert_eq!(rt;
        text(Image::check(&[0, 0, 1, 9, 2]), rt.alloc())?.as_str(),
        "refusal 8: the field at 4 breaks"
    );
    let mut card = Changed::over(Image::over(&[]));
    assert_eq!(rt;
        text(card.remove(18), rt.alloc())?.as_str(),
        "refusal 2: there is no file 18"
    );
    assert_eq!(rt;
        text(card.set(17, 32767, 0), rt.alloc())?.as_str(),
        "refusal 10: no file has a byte at place 32767"
    );
    for place in 0..16 {
        assert_eq!(rt; card.set(2, place, 0), Ok(()));
    }
    assert_eq!(rt;
        text(card.set(2, 0, 0), rt.alloc())?.as_str(),
        "refusal 9: there are sixteen changes already"
    );
    Ok(())
}
