//! The sheet: a table of 75 lines, and which files they were judged for.
//! Nothing here knows what a line is said of; the lines of a file come from above.
#![tactic(auto)]

pub mod files;
pub mod sheet;
pub mod tally;
pub mod walk;

pub use sheet::{LINES, Sheet};
pub use tally::Tally;
pub use walk::{SheetLine, Walk, line_at};
