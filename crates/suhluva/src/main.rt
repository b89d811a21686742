//! Judges cards by a script: reads lines from standard input, does what each says, and prints what came of it.
#![tactic(auto)]

mod asks;
mod by_file;
mod calls;
mod layers;
mod reading;
mod script;
mod word;

use anyhow::{Context, ensure};
use script::Script;
use std::io::{BufRead, BufReader};

fn main(rt: HostRuntime) -> anyhow::Result<()> {
    let heap = rt.alloc();
    let mut script = Script::new(heap);
    let mut wrong = 0u64;
    for (index, line) in BufReader::new(heap, rt.reader())?.lines(heap).enumerate() {
        let line = line.context(format_args!("line {}", index + 1))?;
        match script.answer(&rt, line.trim()) {
            Ok(text) => println!(rt; "{text}")?,
            Err(error) => {
                wrong = wrong.saturating_add(1);
                let number = index + 1;
                println!(rt; "{}: not done, in line {number}: {error}", line.trim())?;
            }
        }
    }
    println!(rt; "end of the script; lines not done: {wrong}")?;
    ensure!(wrong == 0, "lines not done: {wrong}");
    Ok(())
}
