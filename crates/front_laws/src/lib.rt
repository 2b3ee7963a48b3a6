//! What holds of each file: it is one item, or else it has one fault.
//!
//! * `laws`: the laws, as the contracts of functions.
#![tactic(auto)]

mod laws;

pub use laws::{one_fault, one_item, one_reading};
