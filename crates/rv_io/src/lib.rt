//! The outside of the reviewer: where bytes come from and where they go, each with a count of its
//! faults, and the two transfers that the program uses.
#![tactic(auto)]

mod error;
mod gate;
mod memory;
mod sink;
mod source;
mod standard;
mod transfer;

pub use error::{Failed, Memory};
pub use gate::{Gate, OpenGate};
pub use memory::{MemSink, MemSource};
pub use sink::Sink;
pub use source::Source;
pub use standard::{StdSink, StdSource};
pub use transfer::{LARGEST_PIECE, More, ReadError, WriteFault, read_more, write_all};

#[cfg(test)]
mod tests;
