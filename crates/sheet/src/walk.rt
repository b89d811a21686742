//! A walk through the lines of a sheet, by case and then by file.
ghost use Rattle.std.specs.Prelude.{◌≡◌, slice_get};
ghost use Rattle.std.specs.List.{flat_map};
ghost use Rattle.card.specs.Cases.{own_rows, lines_of_row, all_lines, lines_by_case};
ghost use Rattle.sheet.specs.Walks.{ListsCard};

use crate::sheet::Sheet;
use card::{FILES, Line, OWN_CASES, SHARED_CASES};

/// A line with its case and its file.
#[derive(Clone, Copy, Debug, PartialEq, Eq)]
pub struct SheetLine {
    pub case: u8,
    pub file: u8,
    pub line: Line,
}

/// The lines of a sheet that are still to come.
#[derive(Clone, Copy)]
pub struct Walk<'a> {
    sheet: &'a Sheet,
    passed: usize,
}

impl<'a> Walk<'a> {
    /// A walk through all lines.
    pub(crate) fn over(sheet: &'a Sheet) -> Walk<'a>
        ensures { (result.sheet.now ≡ sheet.now) × (result.passed ≡ 0) }
    {
        Walk { sheet, passed: 0 }
    }
}

impl<'a> Iterator for Walk<'a> {
    ghost use Rattle.std.specs.Iterator.{YieldsFirst, item_count};
    ghost use Rattle.sheet.specs.Walks.{still_to_give};

    type Item = SheetLine;

    ghost next_gives = { YieldsFirst still_to_give };

    ghost remaining = { item_count still_to_give };

    fn next(&mut self) -> Option<SheetLine> {
        let (case, file) = by_case(self.passed)?;
        let line = self.sheet.line(case, file)?;
        self.passed += 1;
        Some(SheetLine { case, file, line })
    }
}

/// The case and the file of the line at this index of the table, if there is one.
pub fn line_at(index: usize) -> Option<(u8, u8)>
    ensures line { result ≡ slice_get all_lines index }
    ensures lists { ListsCard all_lines }
{
    let shared = SHARED_CASES * FILES;
    if index >= shared {
        return in_rows(index - shared);
    }
    Some((
        (index % SHARED_CASES + 1) as u8,
        (index / SHARED_CASES) as u8,
    ))
}

/// The case and the file of the line behind so many others, by case and then by file.
fn by_case(passed: usize) -> Option<(u8, u8)>
    ensures { result ≡ slice_get lines_by_case passed }
{
    let shared = SHARED_CASES * FILES;
    if passed >= shared {
        return in_rows(passed - shared);
    }
    Some(((passed / FILES + 1) as u8, (passed % FILES) as u8))
}

/// The case and the file of a line of the rows, behind so many others of them.
fn in_rows(passed: usize) -> Option<(u8, u8)>
    ensures { result ≡ slice_get (flat_map lines_of_row own_rows) passed }
{
    let mut left = passed;
    for row in &OWN_CASES {
        if left < usize::from(row.count) {
            return Some((row.first + left as u8, row.file));
        }
        left -= usize::from(row.count);
    }
    None
}
