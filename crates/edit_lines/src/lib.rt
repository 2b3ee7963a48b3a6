//! What is printed of the edits of a stream, line by line.
//!
//! * `edits`: `kept_line`, `misread_line` and `fault_line`, what an edit came to;
//! * `others`: `sync_line`, `malformed_line`, and the three lines that are always the same.
#![tactic(auto)]

mod edits;
mod others;

pub use edits::{fault_line, kept_line, misread_line};
pub use others::{malformed_line, not_yet_line, read_fault_line, sync_line, too_long_line};
