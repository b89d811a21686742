//! A card: its eighteen files by number and template tag, the profile that declares which of them it has, and the lines
//! that are said of it.
//! Everything else stands on this crate.
#![tactic(auto)]

pub mod cases;
pub mod files;
pub mod line;
pub mod number;
pub mod profile;
pub mod refusal;

pub use cases::{CaseRow, OWN_CASES, SHARED_CASES};
pub use files::{
    CardFiles, DG1, DG2, EF_COM, EF_SOD, FILES, LONGEST, Purpose, TEMPLATE_TAGS, file_purpose,
    template_tag,
};
pub use line::{Failure, Line};
pub use profile::{Kind, Profile};
pub use refusal::{Numbered, ProfileRefusal};
