//! Two sources: the image, which has a card's files in memory, and the chip, an image behind a link that can be lost.
#![tactic(auto)]

pub mod chip;
pub mod image;

pub use chip::Chip;
pub use image::{Image, ImageRefusal, files_of};
