//! What stands at the front of a text.

use crate::token::{Kind, LexKind, Value};
use py_literals::place::Pos;

/// A token that leaves open what is open, or its fault.
#[derive(Debug, Drop)]
pub enum Lexeme {
    /// A token of so many characters.
    Spelled(usize, Kind, Value),
    /// A fault behind so many characters.
    Refused(LexKind, usize),
}

/// What stands at the front of a text.
#[derive(Debug, Drop)]
pub enum Piece {
    /// A token of so many characters.
    Found(usize, Kind, Value),
    /// So many characters that give no token.
    Passed(usize),
    /// A fault behind so many characters.
    Bad(LexKind, usize),
    /// The end of the text, inside the bracket at this place.
    Unclosed(Pos),
    /// The end of the text.
    Over,
}

impl From<Lexeme> for Piece {
    ghost use Rattle.std.specs.Prelude.{◌≡◌};
    ghost use Rattle.py_lexer.specs.Front.{piece_of};

    ghost from_gives = { λ lexeme piece. piece ≡ piece_of lexeme };

    fn from(lexeme: Lexeme) -> Piece {
        match lexeme {
            Lexeme::Spelled(len, kind, value) => Piece::Found(len, kind, value),
            Lexeme::Refused(kind, ahead) => Piece::Bad(kind, ahead),
        }
    }
}
