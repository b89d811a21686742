//! Changes each character of the three printed zones in turn, and prints which cases fail and where.
//! The expected output is made by tools/zone_table.py, which has the rules of the zone written a second time.
#![tactic(auto)]

use card::{DG1, Line, Profile};
use cases::write_verdict;
use sheet::{Sheet, SheetLine};

/// DG1 with the printed zone of TD1.
const TD1: &[u8; 95] = b"\x61\x5d\x5f\x1f\x5a\
    I<UTOD231458907<<<<<<<<<<<<<<<7408122F1204159UTO<<<<<<<<<<<6ERIKSSON<<ANNA<MARIA<<<<<<<<<<";

/// DG1 with the printed zone of TD2.
const TD2: &[u8; 77] = b"\x61\x4b\x5f\x1f\x48\
    I<UTOERIKSSON<<ANNA<MARIA<<<<<<<<<<<D231458907UTO7408122F1204159<<<<<<<6";

/// DG1 with the printed zone of TD3.
const TD3: &[u8; 93] = b"\x61\x5b\x5f\x1f\x58\
    P<UTOERIKSSON<<ANNA<MARIA<<<<<<<<<<<<<<<<<<<L898902C36UTO7408122F1204159ZE184226B<<<<<10";

/// Where the zone starts in each of them.
const ZONE: usize = 5;

/// What is put for each character.
const CHARACTERS: &[u8; 8] = b"0159AV<*";

fn main(rt: HostRuntime) -> anyhow::Result<()> {
    run(&rt)
}

fn run(rt: &HostRuntime) -> anyhow::Result<()> {
    change_each(rt, 1, TD1)?;
    change_each(rt, 2, TD2)?;
    change_each(rt, 3, TD3)
}

/// Prints the failing cases of the file, and of the file with each character of its zone changed in turn.
fn change_each(rt: &HostRuntime, kind: u8, file: &[u8]) -> anyhow::Result<()> {
    let profile = Profile::new(kind, 0x0003)?;
    print!(rt; "TD{kind} as printed:")?;
    print_failures(rt, file, profile)?;
    // By the index: the row names it, and the character there is replaced.
    for index in ZONE..file.len() {
        for character in CHARACTERS {
            let mut changed = file.to_vec(rt.alloc())?;
            if let Some(byte) = changed.get_mut(index) {
                *byte = *character;
            }
            let position = index - ZONE + 1;
            let shown = char::from(*character);
            print!(rt; "TD{kind} {position} {shown}:")?;
            print_failures(rt, &changed, profile)?;
        }
    }
    Ok(())
}

/// Prints the cases that fail for these bytes of DG1, each with its place, and ends the line.
fn print_failures(rt: &HostRuntime, file: &[u8], profile: Profile) -> anyhow::Result<()> {
    let mut sheet = Sheet::new();
    write_verdict(&mut sheet, DG1, Some(file), profile);
    for SheetLine { case, line, .. } in sheet.walk() {
        if let Line::Fail { place } = line {
            print!(rt; " {case} at {place};")?;
        }
    }
    println!(rt; "")?;
    Ok(())
}
