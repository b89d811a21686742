//! The run: judge, ask and close over any source of card files, under one profile.
//! Nothing here looks at a byte's meaning; the lines of a file come from `cases`.
#![tactic(auto)]

pub mod promise;
pub mod refusal;
pub mod run;

pub use promise::{Step, perform};
pub use refusal::{AskRefusal, CloseRefusal, JudgeRefusal};
pub use run::{Run, Summary};
