//! A check of a command stream has one end: what it writes and its status are determined by its input.
//!
//! * `laws`: the laws, as the contracts of functions.
#![tactic(auto)]

mod laws;

pub use laws::{one_check, one_ending, one_said};
