//! Why no expression is read.

use py_lexer::Form;
use py_literals::place::Pos;

/// Why no expression is read, and where.
#[derive(Clone, Copy, Debug, PartialEq, Eq)]
pub enum SyntaxError {
    /// The token behind the longest run with which an expression begins, or the last token where none is behind it.
    Syntax(Pos),
    /// A form of Python that isn't supported, at its first token.
    Unsupported(Form, Pos),
    /// A token that opens nesting 101.
    TooDeep(Pos),
    /// There is no memory left for the tree.
    Memory,
}
