//! No file is judged in two ways: what is said of a file's tokens, and of its text, is one module or one fault.
//!
//! * `laws`: the laws, as the contracts of functions.
#![tactic(auto)]

mod laws;

pub use laws::{one_answer, one_reading};
