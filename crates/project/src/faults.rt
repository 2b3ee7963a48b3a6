//! Why an edit is refused.

ghost use Rattle.std.specs.Prelude.{◌≡◌};
ghost use Rattle.project.specs.declared.faults.FilesError.TheVariants.{Memory};

use std::alloc::{AllocError, AllocFailed};
use std::error::Error;
use std::fmt;

/// A count of a project that has a limit.
#[derive(Clone, Copy, Debug, PartialEq, Eq)]
pub enum Which {
    /// The live files, of which there are at most 4,096.
    Files,
    /// The bytes of all live texts, at most 32 MiB.
    Text,
    /// The callables of all modules, at most 65,535.
    Callables,
}

/// Why `Files::put` refuses a file.
#[derive(Clone, Copy, Debug, PartialEq, Eq)]
pub enum FilesError {
    /// The count would be past its limit.
    Full(Which),
    /// There is no memory left for the answer.
    Memory,
}

impl fmt::Display for FilesError {
    fn fmt<W: fmt::Write>(&self, f: &mut fmt::Formatter<W>) -> fmt::Result {
        match self {
            FilesError::Full(Which::Files) => f.write_str("too many files"),
            FilesError::Full(Which::Text) => f.write_str("too much text"),
            FilesError::Full(Which::Callables) => f.write_str("too many callables"),
            FilesError::Memory => f.write_str("out of memory"),
        }
    }
}

impl Error for FilesError {}

impl From<AllocError> for FilesError {
    ghost from_gives = { λ _ fault. fault ≡ Memory };

    fn from(_error: AllocError) -> FilesError {
        FilesError::Memory
    }
}

impl<T: Drop> From<AllocFailed<T>> for FilesError {
    ghost from_gives = { λ _ fault. fault ≡ Memory };

    fn from(_error: AllocFailed<T>) -> FilesError {
        FilesError::Memory
    }
}

impl From<rv_names::Memory> for FilesError {
    ghost from_gives = { λ _ fault. fault ≡ Memory };

    fn from(_error: rv_names::Memory) -> FilesError {
        FilesError::Memory
    }
}
