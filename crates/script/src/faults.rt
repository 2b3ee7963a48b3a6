//! Why no command was read.

ghost use Rattle.std.specs.Prelude.{◌≡◌};
ghost use Rattle.script.specs.declared.faults.Stop.TheVariants.{Memory};

use std::alloc::{AllocError, AllocFailed};
use std::error::Error;
use std::fmt;

/// Why `next_command` gives no answer.
#[derive(Clone, Copy, Debug, PartialEq, Eq)]
pub enum CommandError {
    /// No command begins at the place `at`, or the input ended within it.
    Malformed { at: usize },
    /// There is no memory left for the answer.
    Memory,
}

impl fmt::Display for CommandError {
    fn fmt<W: fmt::Write>(&self, f: &mut fmt::Formatter<W>) -> fmt::Result {
        match self {
            CommandError::Malformed { at } => write!(f, "malformed {at}"),
            CommandError::Memory => f.write_str("out of memory"),
        }
    }
}

impl Error for CommandError {}

/// What is wrong with the bytes at hand: the first fault from left to right.
#[derive(Clone, Copy, Debug, PartialEq, Eq)]
pub enum Fault {
    /// The bytes end within a line of a command.
    Line,
    /// The bytes end within a text, before the place `until`.
    Text { until: usize },
    /// No command begins so.
    Malformed,
}

/// Why a part of a command was not read.
#[derive(Debug, Drop)]
pub enum Stop {
    Fault(Fault),
    Memory,
}

impl From<AllocError> for Stop {
    ghost from_gives = { λ _ stop. stop ≡ Memory };

    fn from(_error: AllocError) -> Stop {
        Stop::Memory
    }
}

impl<T: Drop> From<AllocFailed<T>> for Stop {
    ghost from_gives = { λ _ stop. stop ≡ Memory };

    fn from(_error: AllocFailed<T>) -> Stop {
        Stop::Memory
    }
}

impl From<rv_names::Memory> for Stop {
    ghost from_gives = { λ _ stop. stop ≡ Memory };

    fn from(_error: rv_names::Memory) -> Stop {
        Stop::Memory
    }
}
