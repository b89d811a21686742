//! Chips whose commands run out, and changes over changes.
use crate::number;
use changed::Changed;
use image::{Chip, Image};
use source::Source;

#[test]
fn chip_without_commands(rt: HostRuntime) {
    let mut buffer = [0; 255];
    let mut chip = Chip::new(Image::over(&[1, 0, 1, 7]), 255, 0);
    assert_eq!(rt; number(chip.read(18, 0, 1, &mut buffer)), Some(7));
    assert_eq!(rt; number(chip.read(1, 0, 1, &mut buffer)), Some(6));
}

#[test]
fn last_command_is_answered(rt: HostRuntime) {
    let mut buffer = [0; 255];
    let mut chip = Chip::new(Image::over(&[1, 0, 3, 7, 8, 9]), 0, 1);
    assert_eq!(rt; number(chip.read(1, 0, 256, &mut buffer)), Some(7));
    assert_eq!(rt; chip.read(1, 1, 255, &mut buffer), Ok(Some(1)));
    assert_eq!(rt; buffer[0], 8);
    assert_eq!(rt; number(chip.read(1, 1, 255, &mut buffer)), Some(6));
}

#[test]
fn absent_answers_use_commands(rt: HostRuntime) {
    let mut buffer = [0; 255];
    let mut card = Changed::over(Chip::new(Image::over(&[1, 0, 1, 7]), 1, 2));
    assert_eq!(rt; card.remove(1), Ok(()));
    assert_eq!(rt; number(card.read(1, 0, 1, &mut buffer)), None);
    assert_eq!(rt; number(card.read(2, 0, 1, &mut buffer)), None);
    assert_eq!(rt; number(card.read(1, 0, 1, &mut buffer)), Some(6));
    assert_eq!(rt; buffer[0], 0);
}

#[test]
fn changes_over_changes(rt: HostRuntime) {
    let mut buffer = [0; 255];
    let mut below = Changed::over(Image::over(&[1, 0, 3, 10, 20, 30]));
    assert_eq!(rt; below.set(1, 0, 11), Ok(()));
    assert_eq!(rt; below.set(1, 1, 21), Ok(()));
    let mut card = Changed::over(below);
    assert_eq!(rt; card.set(1, 1, 22), Ok(()));
    assert_eq!(rt; card.set(1, 1, 23), Ok(()));
    assert_eq!(rt; card.set(1, 3, 99), Ok(()));
    assert_eq!(rt; card.read(1, 0, 255, &mut buffer), Ok(Some(3)));
    assert_eq!(rt; buffer[0], 11);
    assert_eq!(rt; buffer[1], 23);
    assert_eq!(rt; buffer[2], 30);
    assert_eq!(rt; buffer[3], 0);
    assert_eq!(rt; card.remove(1), Ok(()));
    assert_eq!(rt; card.set(1, 0, 7), Ok(()));
    assert_eq!(rt; card.read(1, 0, 255, &mut buffer), Ok(None));
}

#[test]
fn refused_changes(rt: HostRuntime) {
    let mut card = Changed::over(Image::over(&[]));
    assert_eq!(rt; number(card.set(18, 40000, 0)), Some(2));
    assert_eq!(rt; number(card.set(17, 32767, 0)), Some(10));
    assert_eq!(rt; number(card.remove(18)), Some(2));
    for place in 0..16 {
        assert_eq!(rt; card.set(2, place, 0), Ok(()));
    }
    assert_eq!(rt; number(card.set(17, 32767, 0)), Some(10));
    assert_eq!(rt; number(card.set(17, 32766, 0)), Some(9));
    assert_eq!(rt; number(card.remove(2)), Some(9));
}
