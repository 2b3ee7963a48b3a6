//! The journal of a project: edits one after the other, each kept or refused with its cause.
//!
//! * `edit`: a `ReadEdit`, an edit whose file was read;
//! * `faults`: an `EditFault`, why an edit is refused;
//! * `journal`: a `Journal`, the live files with the number of edits and the text that was kept.
#![tactic(auto)]

mod edit;
mod faults;
mod journal;

pub use edit::ReadEdit;
pub use faults::EditFault;
pub use journal::Journal;
