//! A command of a script, and what comes where more bytes must.

use crate::values::{Calls, Values};
use rv_names::Text;

/// A question about the answers of a review.
#[derive(Debug, Drop)]
pub enum Query {
    /// All issues.
    Issues,
    /// The issues of one file.
    IssuesOf { path: Text },
    /// The model of a callable, by its printed name of 1 to 4,096 bytes.
    Model { name: Text },
    /// The trace of an issue, by its number from 1 on in the order of all issues.
    Trace { number: u32 },
    /// The notes.
    Notes,
    /// The version.
    Version,
}

/// A command of a script.
#[derive(Debug, Drop)]
pub enum Command {
    /// `put PATH LEN`: the file's text has `len` bytes, and begins at the place `from` in the bytes that were read.
    Put {
        path: Text,
        from: usize,
        len: usize,
    },
    /// `drop PATH`: the file is gone.
    Drop {
        path: Text,
    },
    /// `ask S QUERY`: a question of session 1 to 16.
    Ask {
        session: u32,
        query: Query,
    },
    /// `sync`.
    Sync,
    /// `run FUEL JSON`: a run with fuel 1 to 1,000,000, these entry calls and these draws.
    Run {
        fuel: u32,
        calls: Calls,
        draws: Values,
    },
    /// `end`: bytes after it are ignored.
    End,
}

/// How many bytes must come before it can pay to ask again.
#[derive(Clone, Copy, Debug, PartialEq, Eq)]
pub enum Wait {
    /// The line has no end yet: none stands before the place `from`, where the search for one goes on. Once there are `until`
    /// bytes, and none of them ends the line, it is longer than any command's, and asking again tells so.
    Line { from: usize, until: usize },
    /// The command ends at the place `until`: there must be that many bytes.
    Text { until: usize },
}

/// A command, or that more bytes must come.
#[derive(Debug, Drop)]
pub enum Next {
    Command(Command),
    Need(Wait),
}
