//! How many commands of a chip a judge uses.
use card::{LONGEST, Numbered, Profile};
use image::{Chip, Image};
use run::{JudgeRefusal, Run};
use std::process::Abort;
use std::test::Fail;

/// Judges file 13 of an image over a chip that takes so many commands, and then once more.
fn judge_twice(
    image: &[u8],
    span: u8,
    commands: u32,
    buffer: &mut [u8],
) -> Result<(Result<(), JudgeRefusal>, Result<(), JudgeRefusal>), Fail> {
    let profile = Profile::new(3, 0x1003)?;
    let mut run = Run::open(Chip::new(Image::over(image), span, commands), profile);
    let first = run.judge(13, buffer);
    let second = run.judge(13, buffer);
    Ok((first, second))
}

/// Whether the link was lost.
fn is_lost(answer: Result<(), JudgeRefusal>) -> bool {
    answer.is_err_and(|refusal| refusal.number() == 6)
}

/// A judge of file 13 uses exactly so many commands.
fn uses(
    rt: &impl Abort,
    image: &[u8],
    span: u8,
    commands: u32,
    buffer: &mut [u8],
) -> Result<(), Fail> {
    let (first, second) = judge_twice(image, span, commands, buffer)?;
    assert!(rt; first.is_ok(), "enough commands");
    assert!(rt; is_lost(second), "none left");
    let (first, _) = judge_twice(image, span, commands.saturating_sub(1), buffer)?;
    assert!(rt; is_lost(first), "one command short");
    Ok(())
}

/// An image with a file 13 of so many bytes.
fn image_of(heap: std::alloc::Global, size: u16) -> Result<Vec<u8>, Fail> {
    let [high, low] = size.to_be_bytes();
    let mut image = Vec::new(heap);
    image.push(13)?;
    image.push(high)?;
    image.push(low)?;
    for _ in 0..size {
        image.push(0)?;
    }
    Ok(image)
}

#[test]
fn commands_of_a_judge(rt: HostRuntime) -> Result<(), Fail> {
    let heap = rt.alloc();
    let mut buffer = vec![in heap; 0u8; usize::from(LONGEST)]?;
    uses(&rt, &image_of(heap, LONGEST)?, 255, 129, &mut buffer)?;
    let file = image_of(heap, 300)?;
    uses(&rt, &file, 255, 3, &mut buffer)?;
    uses(&rt, &file, 1, 301, &mut buffer)?;
    uses(&rt, &image_of(heap, 0)?, 255, 1, &mut buffer)?;
    uses(&rt, b"", 255, 1, &mut buffer)
}
