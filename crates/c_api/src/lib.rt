//! The C interface: calls on numbers and slices, exported for C and whatever calls like C. `include/suhluva.h` declares them.
#![tactic(auto)]

ghost use Rattle.std.specs.Prelude.{◌≡◌, length, map};
ghost use Rattle.card.specs.Refusals.{valued};
ghost use Rattle.image.specs.Numbers.{of_image};
ghost use Rattle.sheet.specs.Tables.{line_count};
ghost use Rattle.c_api.specs.Exports.{state_of, place_of, SameCounts, ChecksImage, NamesLine, Position, sheet_call, Lent, MakesSheet};

use card::number::NOT_THERE;
use card::{Line, Numbered, Profile};
use cases::judge_card;
use image::{Image, ImageRefusal, files_of};
use sheet::{LINES, Sheet, Tally, line_at};

// C's own struct of the counts: `Tally` has bytes, and no layout that C knows.
/// The lines of a sheet counted by their state.
#[repr(C)]
#[derive(Clone, Copy, Debug)]
pub struct Counts {
    pub pass: u32,
    pub fail: u32,
    pub not_applicable: u32,
    pub blocked: u32,
}

impl From<Tally> for Counts {
    ghost from_gives = { λ tally counts. SameCounts tally counts };

    fn from(tally: Tally) -> Counts {
        Counts {
            pass: u32::from(tally.pass),
            fail: u32::from(tally.fail),
            not_applicable: u32::from(tally.not_applicable),
            blocked: u32::from(tally.blocked),
        }
    }
}

// The calls below answer numbers and not enums, since C does.

/// Checks an image: 0, or 8, and then `position` is where its first broken field starts.
#[unsafe(no_mangle)]
pub extern "C" fn suhluva_check_image(image: &[u8], position: &mut u64) -> u32
    ensures { let told : Position = record { before = position.old; after = position.new } in
        ChecksImage image.now told result }
{
    match Image::check(image) {
        Ok(_) => 0,
        Err(refusal) => report(refusal, position),
    }
}

/// The case and the file of the line at this index of the arrays: 0, or 2 where there is no such line.
#[unsafe(no_mangle)]
pub extern "C" fn suhluva_line(index: u32, case_number: &mut u8, file: &mut u8) -> u32
    ensures { NamesLine index (case_number.old, file.old) (case_number.new, file.new) result }
{
    let Some((case, of)) = line_at(index as usize) else {
        return u32::from(NOT_THERE);
    };
    *case_number = case;
    *file = of;
    0
}

/// Makes the sheet of an image under a profile: the state and the place of each of the 75 lines, and the four counts.
/// Answers 0, or refusal 1, or 8 with the position.
#[unsafe(no_mangle)]
pub extern "C" fn suhluva_sheet(
    kind: u8,
    declared: u16,
    image: &[u8],
    states: &mut [u8; LINES],
    places: &mut [u64; LINES],
    counts: &mut Counts,
    position: &mut u64,
) -> u32
    ensures { let call = sheet_call kind declared image.now in
        let before : Lent = record {
          states = states.old;
          places = places.old;
          counts = counts.old;
          position = position.old;
        } in
        let after : Lent = record {
          states = states.new;
          places = places.new;
          counts = counts.new;
          position = position.new;
        } in
        MakesSheet call before after result }
{
    let profile = match Profile::new(kind, declared) {
        Ok(profile) => profile,
        Err(refusal) => return u32::from(refusal.number()),
    };
    let files = match files_of(image) {
        Ok(files) => files,
        Err(refusal) => return report(refusal, position),
    };
    let mut sheet = Sheet::new();
    judge_card(&mut sheet, &files, profile);
    write_lines(sheet.lines(), states, places);
    *counts = sheet.tally().into();
    0
}

/// The number of an image's refusal, with the start of the field that breaks in `position`.
fn report(refusal: ImageRefusal, position: &mut u64) -> u32
    ensures { valued result position.new ≡ of_image refusal }
{
    let ImageRefusal::Malformed { position: start } = refusal;
    // There is no `From` that leads from `usize` to `u64`.
    *position = start as u64;
    u32::from(refusal.number())
}

// By the index, over the two arrays that C hands over: what is written through an adapter of `iter_mut` is not known afterwards.
/// Writes the state and the place of each line.
fn write_lines(lines: &[Line], states: &mut [u8; LINES], places: &mut [u64; LINES])
    requires { length lines.now ≡ line_count }
    ensures states { states.new ≡ map state_of lines.now }
    ensures places { places.new ≡ map place_of lines.now }
{
    for (i, line) in lines.iter().enumerate() {
        states[i] = state_number(*line);
        places[i] = failed_at(*line);
    }
}

// A function and no `From`: neither the line nor the number is a type of this crate.
/// The number of a line's state.
fn state_number(line: Line) -> u8
    ensures { result ≡ state_of line }
{
    match line {
        Line::Open => 0,
        Line::Pass => 1,
        Line::Fail { .. } => 2,
        Line::NotApplicable => 3,
        Line::Blocked => 4,
    }
}

/// The place of a line that fails, 0 of any other.
fn failed_at(line: Line) -> u64
    ensures { result ≡ place_of line }
{
    match line {
        Line::Fail { place } => place as u64,
        _ => 0,
    }
}
