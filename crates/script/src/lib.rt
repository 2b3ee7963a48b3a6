//! The commands of a review's script, read one after another from bytes that may come in pieces.
//!
//! * `command`: a `Command` and what it holds;
//! * `values`: the plain values and the entry calls of a run;
//! * `faults`: why no command was read;
//! * `fields`: the parts of a line: words, paths, numbers and names;
//! * `run`: the calls and draws of a run, from JSON;
//! * `reading`: `next_command`.
#![tactic(auto)]

mod command;
mod faults;
mod fields;
mod reading;
mod run;
mod values;

pub use command::{Command, Next, Query, Wait};
pub use faults::CommandError;
pub use reading::{next_command, one_reading};
pub use values::{Calls, Entry, Plain, Values};
