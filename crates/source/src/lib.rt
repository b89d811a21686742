//! A source of card files: what it means, what a read of it may answer, and how a whole file is read from any source.
//! Which sources there are stands in the crates above.
#![tactic(auto)]

pub mod read;
pub mod whole;

pub use read::{Fault, Loss, Source, well_formed};
pub use whole::{WholeRefusal, read_whole};
