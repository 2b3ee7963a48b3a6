// The one way in which a call fails.
use std::alloc::{AllocError, AllocFailed};
use std::error::Error;
use std::fmt;

/// Memory was refused, or a counter of owners or of posts is full.
#[derive(Clone, Copy, Debug, Eq, PartialEq)]
pub struct Memory;

impl fmt::Display for Memory {
    fn fmt<W: fmt::Write>(&self, f: &mut fmt::Formatter<W>) -> fmt::Result {
        write!(f, "out of memory")
    }
}

impl Error for Memory {}

impl From<AllocError> for Memory {
    fn from(_failed: AllocError) -> Memory {
        Memory
    }
}

impl<T: Drop> From<AllocFailed<T>> for Memory {
    fn from(_failed: AllocFailed<T>) -> Memory {
        Memory
    }
}
