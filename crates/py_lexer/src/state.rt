//! What is open where a text is read.

ghost use Rattle.std.specs.Prelude.{◌≡◌};
ghost use Rattle.py_lexer.specs.Runs.{start};

use crate::stack::{Blocks, Brackets};
use py_literals::text::StringKind;
use std::alloc::Global;

/// Where in a text its next character stands.
#[derive(Clone, Copy, Debug, PartialEq, Eq)]
pub enum Mode {
    /// At the beginning of a logical line, before its indentation.
    LineStart,
    /// At the first token of a logical line, behind white space of this column.
    Indented(usize),
    /// Inside a logical line.
    Inside,
    /// In the text of a formatted string of this kind, behind whose body so many characters of the whole text stand.
    Literal(StringKind, usize),
    /// In a field of such a string.
    Field(StringKind, usize),
}

/// The leading white space of lines: all of a text's is of one kind.
#[derive(Clone, Copy, Debug, PartialEq, Eq)]
pub enum White {
    Spaces,
    Tabs,
}

/// What is open at a place of a text.
#[derive(Debug, Drop)]
pub struct State {
    pub mode: Mode,
    /// The open brackets outside of fields.
    pub brackets: Brackets,
    /// The columns of the open blocks.
    pub blocks: Blocks,
    /// The kind of leading white space that was seen so far.
    pub white: Option<White>,
}

impl State {
    /// Before the first character of a text.
    pub fn new(alloc: Global) -> State {
        State {
            mode: Mode::LineStart,
            brackets: Brackets::new(alloc),
            blocks: Blocks::new(alloc),
            white: None,
        }
    }

    /// Goes before the first character of a further text, and keeps the room of what was open.
    pub fn begin(&mut self)
        ensures { self.new ≡ start }
    {
        self.mode = Mode::LineStart;
        self.brackets.clear();
        self.blocks.clear();
        self.white = None;
    }
}
