//! EF.COM's own cases, 4 to 8: the objects of its template, the two version texts and the list of data group tags.
#![tactic(auto)]

mod contents;
pub mod lines;
mod tags;

pub use lines::{CommonLines, common_lines};
