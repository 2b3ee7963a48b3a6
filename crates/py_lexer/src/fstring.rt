//! The parts of formatted strings.

ghost use Rattle.std.specs.Prelude.{◌≡◌, ◌∷◌, length, drop, take, ◌-◌, IfOk};
ghost use Rattle.py_literals.specs.Formatted.{text_len};
ghost use Rattle.py_lexer.specs.Front.{front_of};
ghost use Rattle.py_lexer.specs.Formatted.{text_of, text_or_field, literal, field_end};

use crate::piece::{Lexeme, Piece};
use crate::spellings::Spellings;
use crate::state::{Mode, State};
use crate::strings::quotes_len;
use crate::token::{Kind, LexKind, Value};
use py_literals::escape::{EscapeError, decode};
use py_literals::formatted::text_len;
use py_literals::text::StringKind;
use rv_names::Memory;
use std::alloc::Global;

fn text_of(
    alloc: Global,
    spellings: &mut Spellings,
    kind: &StringKind,
    text: &[char],
) -> Result<Lexeme, Memory>
    ensures { IfOk result (λ lexeme. lexeme ≡ text_of kind.now text.now) }
{
    match decode(alloc, kind, text) {
        Err(EscapeError::Memory) => Err(Memory),
        Err(EscapeError::Bad(ahead)) => Ok(Lexeme::Refused(LexKind::BadEscape, ahead)),
        Ok(value) => {
            let value = spellings.text(alloc, &value)?;
            Ok(Lexeme::Spelled(text.len(), Kind::FStringText, Value::Text(value)))
        }
    }
}

fn text_or_field(
    alloc: Global,
    spellings: &mut Spellings,
    state: &mut State,
    kind: StringKind,
    beyond: usize,
    body: &[char],
) -> Result<Piece, Memory>
    ensures { IfOk result (λ p. front_of p state.new ≡ text_or_field state.old kind beyond body.now (text_len body.now)) }
{
    let len = text_len(body);
    if len == 0 {
        state.mode = Mode::Field(kind, beyond);
        return Ok(Piece::Found(1, Kind::FieldOpen, Value::Nothing));
    }
    let (text, _) = body.split_at(len);
    Ok(Piece::from(text_of(alloc, spellings, &kind, text)?))
}

/// What stands in a formatted string of this kind outside of its fields: a text, the `{` of a field, or the closing
/// quotes. Behind its body stand so many characters (Language Reference, 2.4.3).
pub fn literal(
    alloc: Global,
    spellings: &mut Spellings,
    state: &mut State,
    kind: StringKind,
    beyond: usize,
    chars: &[char],
) -> Result<Piece, Memory>
    ensures { IfOk result (λ p. front_of p state.new ≡ literal state.old kind beyond chars.now) }
{
    let (body, _) = chars.split_at(chars.len().saturating_sub(beyond));
    match body {
        [] => {
            state.mode = Mode::Inside;
            Ok(Piece::Found(quotes_len(&kind), Kind::FStringEnd, Value::Nothing))
        }
        _ => text_or_field(alloc, spellings, state, kind, beyond, body),
    }
}

/// The `}` of a field of such a string.
pub fn field_end(state: &mut State, kind: StringKind, beyond: usize) -> Piece
    ensures { front_of result state.new ≡ field_end state.old kind beyond }
{
    state.mode = Mode::Literal(kind, beyond);
    Piece::Found(1, Kind::FieldClose, Value::Nothing)
}
