//! Files as they are read: a Python file, a model file, or the configuration, by the path.
//!
//! * `reading`: `read_file` and `read_file_with`, the item of a project that a file is, or why it is refused;
//! * `faults`: a `ReadFault`, why a file is refused, and how that is printed.
//!
//! What holds of each file (it is one item, or else it has one fault) is in the crate `front_laws`.
#![tactic(auto)]

mod faults;
mod reading;

pub use faults::ReadFault;
pub use reading::{read_file, read_file_with};
