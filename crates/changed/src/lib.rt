//! The changed source: any source with a few changes laid on its files.
#![tactic(auto)]

pub mod change;
pub mod changed;

pub use change::ChangeRefusal;
pub use changed::Changed;
