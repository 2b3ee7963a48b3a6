//! Texts, names and qualified names of a Python project, shared between threads, and numbers for qualified names.
//!
//! * `inline`: a text of at most 22 bytes, which lie in the value itself;
//! * `texts`: a `Text`, UTF-8 that is copied at the cost of 24 bytes or a counter;
//! * `identifiers`: a `Name`, a text that is an identifier, and `Name::read`, the test of an identifier;
//! * `qualified`: a `QName`, a list of names;
//! * `numbering`: `Names`, which numbers qualified names from 0 on;
//! * `faults`: what these answer where they fail.
#![tactic(auto)]

mod faults;
mod identifiers;
mod inline;
mod numbering;
mod qualified;
#[cfg(test)]
mod tests;
mod texts;

pub use faults::{Memory, NameFault};
pub use identifiers::{Name, is_identifier_continue, is_identifier_start};
pub use numbering::Names;
pub use qualified::QName;
pub use texts::Text;
