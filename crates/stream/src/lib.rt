//! The commands of an input, read one by one from a source.
//!
//! * `stream`: `Stream`, which reads them and holds the bytes of the last one;
//! * `fault`: why no command is given;
//! * `asking`: what the bytes at hand begin with;
//! * `reading`: more bytes, until there is a command, or a first byte;
//! * `laws`: what two readings of one input have in common.
#![tactic(auto)]

mod asking;
mod fault;
mod laws;
mod reading;
mod stream;
#[cfg(test)]
mod tests;

pub use fault::StreamFault;
pub use laws::{next_in_row, same_row};
pub use reading::LONGEST_INPUT;
pub use stream::Stream;
