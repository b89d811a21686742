//! Examples that the cases are run on.
#![tactic(auto)]

#[cfg(test)]
mod contents;
#[cfg(test)]
mod largest;
#[cfg(test)]
mod structures;

#[cfg(test)]
use card::{Line, Profile};
#[cfg(test)]
use cases::write_verdict;
#[cfg(test)]
use sheet::Sheet;
#[cfg(test)]
use std::test::Fail;

/// The line of a case of a file, absent or of some bytes, under a profile of kind 3 with this declared set.
#[cfg(test)]
fn line(declared: u16, case: u8, file: u8, content: Option<&[u8]>) -> Result<Line, Fail> {
    let mut sheet = Sheet::new();
    write_verdict(&mut sheet, file, content, Profile::new(3, declared)?);
    Ok(sheet.line(case, file).ok_or("no such line")?)
}
