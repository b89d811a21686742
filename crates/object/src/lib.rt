//! Objects: a tag, a length and a value, read from a file's bytes; and whether objects tile a range at every level.
#![tactic(auto)]

pub mod header;
pub mod object;
pub mod reader;
pub mod tiling;

pub use header::read_length;
pub use object::Object;
pub use reader::{Reader, Value};
pub use tiling::tile;
