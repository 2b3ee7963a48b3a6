//! Why no command is given.

use std::error::Error;
use std::fmt;

/// Why `Stream::next` or `Stream::next_at_hand` gives no command, or `Stream::peek` no byte. All places are offsets in the
/// whole input, from 0.
#[derive(Clone, Copy, Debug, PartialEq, Eq)]
pub enum StreamFault {
    /// No command begins at the place `at`, or the input ended before one was whole.
    Malformed { at: usize },
    /// The source failed, and its count of faults rose.
    ReadFault,
    /// `LONGEST_INPUT` bytes were taken, the last of which are no whole command, and one more came. That byte is lost.
    TooLong,
    /// There was no memory.
    Memory,
}

impl fmt::Display for StreamFault {
    fn fmt<W: fmt::Write>(&self, f: &mut fmt::Formatter<W>) -> fmt::Result {
        match self {
            StreamFault::Malformed { at } => write!(f, "malformed {at}"),
            StreamFault::ReadFault => f.write_str("the read failed"),
            StreamFault::TooLong => f.write_str("the input is too long"),
            StreamFault::Memory => f.write_str("out of memory"),
        }
    }
}

impl Error for StreamFault {}
