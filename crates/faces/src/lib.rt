//! The faces of DG2: what cases 21 to 23 say of the value of its template.
#![tactic(auto)]

pub mod entries;
pub mod features;
pub mod group;
pub mod lines;

pub use lines::{FaceLines, face_lines};
