//! The numbers of all refusals by their names. No other code writes one.

/// The kind and the declared set make no profile.
pub const NO_PROFILE: u8 = 1;

/// There is no such file, or no such line.
pub const NOT_THERE: u8 = 2;

/// The buffer is too short for the longest file.
pub const SHORT_BUFFER: u8 = 3;

/// A file has not been judged.
pub const UNJUDGED: u8 = 4;

/// A close has been accepted.
pub const CLOSED: u8 = 5;

/// The link is lost.
pub const LOST: u8 = 6;

/// The read is malformed.
pub const MALFORMED_READ: u8 = 7;

/// The image is malformed.
pub const MALFORMED_IMAGE: u8 = 8;

/// There are as many changes as a source takes.
pub const FULL: u8 = 9;

/// No file has a byte at the place of the change.
pub const NO_PLACE: u8 = 10;
