//! The verdict of a file, from its bytes or its absence and the profile, and that of a whole card. Nothing here reads a
//! source.
#![tactic(auto)]

mod file;
pub mod rows;
mod structure;
mod template;
pub mod verdict;

pub use rows::worked_rows;
pub use verdict::{judge_card, write_verdict};
