//! The same card gives the same sheet, whatever the source.
use card::{EF_SOD, LONGEST, Profile};
use changed::Changed;
use image::{Chip, Image};
use run::Run;
use samples::TD3_CARD;
use source::Source;
use std::process::Abort;
use std::test::Fail;

/// Judges every file.
fn judge_all<S: Source>(run: &mut Run<S>, buffer: &mut [u8]) -> Result<(), Fail> {
    for file in 0..=EF_SOD {
        run.judge(file, buffer)?;
    }
    Ok(())
}

/// The profile of kind 3 that declares DG1 and DG2.
fn profile() -> Result<Profile, Fail> {
    Ok(Profile::new(3, 0x0003)?)
}

/// Both runs have the same lines.
fn same_lines<S: Source, T: Source>(
    rt: &impl Abort,
    one: &Run<S>,
    other: &Run<T>,
) -> Result<(), Fail> {
    for file in 0..=18u8 {
        for case in 0..=40u8 {
            match (one.ask(case, file), other.ask(case, file)) {
                (Ok(line), Ok(same)) => assert_eq!(rt; line, same),
                (Err(_), Err(_)) => {}
                _ => return Err(Fail::new("a line in one sheet only")),
            }
        }
    }
    Ok(())
}

#[test]
fn same_sheet_at_every_span(rt: HostRuntime) -> Result<(), Fail> {
    let mut buffer = vec![in rt.alloc(); 0u8; usize::from(LONGEST)]?;
    let mut whole = Run::open(Image::over(TD3_CARD), profile()?);
    judge_all(&mut whole, &mut buffer)?;
    for span in 0..=255u8 {
        let mut run = Run::open(Chip::new(Image::over(TD3_CARD), span, 1000), profile()?);
        judge_all(&mut run, &mut buffer)?;
        same_lines(&rt, &whole, &run)?;
    }
    Ok(())
}

#[test]
fn same_sheet_over_a_pile(rt: HostRuntime) -> Result<(), Fail> {
    let mut buffer = vec![in rt.alloc(); 0u8; usize::from(LONGEST)]?;
    let mut whole = Run::open(Image::over(TD3_CARD), profile()?);
    judge_all(&mut whole, &mut buffer)?;
    let mut low = Changed::over(Chip::new(Image::over(TD3_CARD), 3, 1000));
    assert!(rt; low.set(1, 58, b'7').is_ok());
    let mut middle = Changed::over(low);
    assert!(rt; middle.set(1, 58, b'6').is_ok());
    let mut run = Run::open(Changed::over(middle), profile()?);
    judge_all(&mut run, &mut buffer)?;
    same_lines(&rt, &whole, &run)
}
