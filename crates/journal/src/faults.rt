//! Why an edit is refused.

ghost use Rattle.std.specs.Prelude.{◌≡◌};
ghost use Rattle.journal.specs.declared.faults.EditFault.TheVariants.{Memory};

use project::Which;
use std::error::Error;
use std::fmt;

/// Why an edit is refused: the first of these that holds.
#[derive(Clone, Copy, Debug, PartialEq, Eq)]
pub enum EditFault {
    /// 65,536 edits are kept, or the texts that were put would have more than 64 MiB.
    JournalFull,
    /// No file is live at the path that is dropped; with the number of edits so far.
    NotThere { number: u32 },
    /// The first of the project's counts that would be past its limit: files, text, callables.
    ProjectFull(Which),
    /// There is no memory left for the answer.
    Memory,
}

impl fmt::Display for EditFault {
    fn fmt<W: fmt::Write>(&self, f: &mut fmt::Formatter<W>) -> fmt::Result {
        match self {
            EditFault::JournalFull => f.write_str("the journal is full"),
            EditFault::NotThere { number } => write!(f, "no such file after edit {number}"),
            EditFault::ProjectFull(Which::Files) => f.write_str("too many files"),
            EditFault::ProjectFull(Which::Text) => f.write_str("too much text"),
            EditFault::ProjectFull(Which::Callables) => f.write_str("too many callables"),
            EditFault::Memory => f.write_str("out of memory"),
        }
    }
}

impl Error for EditFault {}

impl From<rv_names::Memory> for EditFault {
    ghost from_gives = { λ _ fault. fault ≡ Memory };

    fn from(_error: rv_names::Memory) -> EditFault {
        EditFault::Memory
    }
}
