//! DG1's own cases, 9 to 20: the machine readable zone in its three layouts, and one judge for every layout.
#![tactic(auto)]

mod contents;
mod fields;
mod judge;
mod layout;
pub mod lines;

pub use layout::{Cover, Layout, Places, Span, Td1, Td2, Td3};
pub use lines::{ZoneLines, zone_lines};
