//! The deepest file and the largest ones, which are walked in one pass.
use crate::line;
use card::Line;
use std::alloc::{AllocError, Global};
use std::test::Fail;

/// The line of case 3 of DG15.
fn tiling(bytes: &[u8]) -> Result<Line, Fail> {
    line(0x4003, 3, 15, Some(bytes))
}

/// DG15 with so many objects 30, each inside the one before it.
fn nested(heap: Global, count: u8) -> Result<Vec<u8>, AllocError> {
    let mut bytes = Vec::new(heap);
    bytes.push(0x6f)?;
    for object in 0..count {
        bytes.push((count - object).saturating_mul(2))?;
        bytes.push(0x30)?;
    }
    bytes.push(0)?;
    Ok(bytes)
}

/// DG15 of 32,767 bytes: one object 04 of one byte, and then objects of this tag without a value.
fn largest(heap: Global, tag: u8) -> Result<Vec<u8>, AllocError> {
    let mut bytes = [0x6f, 0x82, 0x7f, 0xfb, 0x04, 0x01, 0x00].to_vec(heap)?;
    for _ in 0..16380 {
        bytes.push(tag)?;
        bytes.push(0)?;
    }
    Ok(bytes)
}

#[test]
fn deepest(rt: HostRuntime) -> Result<(), Fail> {
    assert_eq!(rt; tiling(&nested(rt.alloc(), 15)?)?, Line::Pass);
    assert_eq!(rt; tiling(&nested(rt.alloc(), 16)?)?, Line::Fail { place: 32 });
    Ok(())
}

#[test]
fn many_plain_objects(rt: HostRuntime) -> Result<(), Fail> {
    let bytes = largest(rt.alloc(), 0x04)?;
    assert_eq!(rt; bytes.len(), 32767);
    assert_eq!(rt; tiling(&bytes)?, Line::Pass);
    Ok(())
}

#[test]
fn many_nested_objects(rt: HostRuntime) -> Result<(), Fail> {
    assert_eq!(rt; tiling(&largest(rt.alloc(), 0x30)?)?, Line::Pass);
    assert_eq!(rt;
        tiling(&largest(rt.alloc(), 0x00)?)?,
        Line::Fail { place: 7 }
    );
    Ok(())
}
