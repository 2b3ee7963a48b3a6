//! How a check ends, as the status of the program tells it.

/// All edits were kept, and there is no issue.
pub const NO_ISSUE: u8 = 0;
/// What stands in the input is no command that a check takes.
pub const MALFORMED: u8 = 3;
/// The source failed.
pub const SOURCE_FAILED: u8 = 4;
/// The sink failed.
pub const SINK_FAILED: u8 = 5;
/// There was no memory.
pub const NO_MEMORY: u8 = 6;
/// The input is longer than an input may be.
pub const TOO_LONG: u8 = 7;
/// All edits were kept, and there is an issue.
pub const ISSUES: u8 = 8;
/// An edit was refused.
pub const REFUSED: u8 = 9;
/// There is no answer yet.
pub const UNANSWERED: u8 = 10;
