//! The texts of the machine readable zone: check digits, dates and names. Nothing here knows where a field stands.
#![tactic(auto)]

pub mod dates;
pub mod digits;
pub mod names;

pub use dates::is_date;
pub use digits::{check_digit, composite_digit};
pub use names::{is_filled, is_name};
