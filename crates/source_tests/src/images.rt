//! Images at their edges, and files of every length that there is.
use crate::number;
use image::{Image, ImageRefusal};
use source::{Source, read_whole};
use std::test::Fail;

/// Where the first broken field starts.
fn broken(bytes: &[u8]) -> Option<usize> {
    let ImageRefusal::Malformed { position } = Image::check(bytes).err()?;
    Some(position)
}

#[test]
fn good_images(rt: HostRuntime) {
    assert_eq!(rt; broken(&[]), None);
    assert_eq!(rt; broken(&[0, 0, 0]), None);
    assert_eq!(rt; broken(&[0, 0, 1, 0xaa, 13, 0, 0]), None);
    assert_eq!(rt; broken(&[17, 0, 2, 1, 2]), None);
}

#[test]
fn fields_cut_at_each_place(rt: HostRuntime) {
    assert_eq!(rt; broken(&[0, 0, 1, 9, 2]), Some(4));
    assert_eq!(rt; broken(&[0, 0, 1, 9, 2, 0]), Some(4));
    assert_eq!(rt; broken(&[0, 0, 1, 9, 2, 0, 2]), Some(4));
    assert_eq!(rt; broken(&[0, 0, 1, 9, 2, 0, 2, 7]), Some(4));
    assert_eq!(rt; broken(&[0, 0, 1, 9, 2, 0, 2, 7, 7]), None);
}

#[test]
fn numbers_out_of_order(rt: HostRuntime) {
    assert_eq!(rt; broken(&[1, 0, 0, 1, 0, 0]), Some(3));
    assert_eq!(rt; broken(&[2, 0, 0, 1, 0, 0]), Some(3));
    assert_eq!(rt; broken(&[18, 0, 0]), Some(0));
    assert_eq!(rt; broken(&[1, 0, 0, 18, 0, 0]), Some(3));
}

#[test]
fn longest_file(rt: HostRuntime) -> Result<(), Fail> {
    let mut bytes = vec![in rt.alloc(); 5u8; 32770]?;
    bytes[1] = 0x7f;
    bytes[2] = 0xff;
    let mut buffer = vec![in rt.alloc(); 0u8; 32768]?;
    let mut image = Image::over(&bytes);
    assert_eq!(rt; read_whole(&mut image, 5, &mut buffer), Ok(Some(32767)));
    assert!(rt; buffer.len() == 32768);
    assert_eq!(rt; buffer[32766], 5);
    assert_eq!(rt; buffer[32767], 0);
    Ok(())
}

#[test]
fn file_too_long(rt: HostRuntime) -> Result<(), Fail> {
    let mut bytes = vec![in rt.alloc(); 5u8; 32771]?;
    bytes[1] = 0x80;
    bytes[2] = 0x00;
    assert_eq!(rt; broken(&bytes), Some(0));
    Ok(())
}

#[test]
fn empty_file_is_not_absent(rt: HostRuntime) -> Result<(), Fail> {
    let mut buffer = vec![in rt.alloc(); 0u8; 32767]?;
    let mut image = Image::over(&[1, 0, 0]);
    assert_eq!(rt; read_whole(&mut image, 1, &mut buffer), Ok(Some(0)));
    assert_eq!(rt; read_whole(&mut image, 2, &mut buffer), Ok(None));
    Ok(())
}

#[test]
fn bad_image_has_no_files(rt: HostRuntime) -> Result<(), Fail> {
    let mut buffer = vec![in rt.alloc(); 0u8; 32767]?;
    let mut image = Image::over(&[1, 0, 1, 7, 9]);
    assert_eq!(rt; read_whole(&mut image, 1, &mut buffer), Ok(None));
    Ok(())
}

#[test]
fn refusals_of_a_whole_file(rt: HostRuntime) -> Result<(), Fail> {
    let mut buffer = vec![in rt.alloc(); 0u8; 32767]?;
    let mut image = Image::over(&[]);
    assert_eq!(rt; number(read_whole(&mut image, 18, &mut buffer)), Some(2));
    assert_eq!(rt;
        number(read_whole(&mut image, 17, &mut buffer[0..32766])),
        Some(3)
    );
    Ok(())
}

#[test]
fn malformed_reads(rt: HostRuntime) {
    let mut buffer = [9; 255];
    let mut image = Image::over(&[17, 0, 2, 1, 2]);
    assert!(rt; image.read(18, 0, 1, &mut buffer).is_err());
    assert!(rt; image.read(17, 0, 0, &mut buffer).is_err());
    assert!(rt; image.read(17, 0, 256, &mut buffer).is_err());
    assert!(rt; image.read(17, 0, 5, &mut buffer[0..4]).is_err());
    assert_eq!(rt; buffer[0], 9);
    assert!(rt; image.read(17, 65535, 255, &mut buffer).is_ok());
    assert_eq!(rt; buffer[0], 9);
    assert!(rt; image.read(17, 1, 255, &mut buffer).is_ok());
    assert_eq!(rt; buffer[0], 2);
    assert_eq!(rt; buffer[1], 9);
}
