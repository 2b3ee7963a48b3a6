//! Why a text gave no models.

use py_lexer::{Form, LexKind};
use py_literals::place::Pos;
use std::error::Error;
use std::fmt;

/// Why a text gave no models. The lexical fault comes before the others; of the others the one with the least place is
/// told, and at one place `Unsupported` before `Syntax`.
#[derive(Clone, Copy, Debug, PartialEq, Eq)]
pub enum ModelError {
    /// The text has no tokens: its lexical fault, and its place.
    Lex(LexKind, Pos),
    /// The first token that no model file goes on with, or the last one where more would have to follow.
    Syntax(Pos),
    /// The first token of a form that isn't read.
    Unsupported(Form, Pos),
    /// There is no memory left for the answer.
    Memory,
}

impl fmt::Display for ModelError {
    fn fmt<W: fmt::Write>(&self, f: &mut fmt::Formatter<W>) -> fmt::Result {
        match self {
            ModelError::Lex(kind, at) => write!(f, "{}:{}: {kind}", at.line, at.col),
            ModelError::Syntax(at) => write!(f, "{}:{}: Syntax", at.line, at.col),
            ModelError::Unsupported(form, at) => {
                write!(f, "{}:{}: Unsupported {form}", at.line, at.col)
            }
            ModelError::Memory => f.write_str("out of memory"),
        }
    }
}

impl Error for ModelError {}
