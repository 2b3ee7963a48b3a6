//! Strings.

ghost use Rattle.std.specs.Prelude.{◌≡◌, ◌==◌, ◌≤◌, ◌<◌, ◌+◌, ◌∷◌, ◌^◌, length, drop, Ok, IfOk, IsTrue};
ghost use Rattle.std.specs.List.{list_any};
ghost use Rattle.py_literals.specs.Escape.{decoded};
ghost use Rattle.rv_names.specs.Identifier.{is_identifier_start};
ghost use Rattle.py_lexer.specs.Front.{front_of};
ghost use Rattle.py_lexer.specs.Strings.{quotes_len, quotes_at, valued, unformatted, formatted, string_of, string, string_or_word};

use crate::piece::{Lexeme, Piece};
use crate::spellings::Spellings;
use crate::state::{Mode, State};
use crate::token::{Kind, LexKind, Value};
use crate::words::word;
use py_literals::escape::{EscapeError, decode_in};
use py_literals::formatted::has_form;
use py_literals::text::{Opening, StringKind, string_body, string_opening};
use rv_names::Memory;
use std::alloc::Global;
use std::mem;

/// How many quotes open such a string, and close it.
pub fn quotes_len(kind: &StringKind) -> usize
    ensures value { result ≡ quotes_len kind.now }
    ensures some { 0 < result }
    ensures few { result ≤ 3 }
{
    if kind.triple { 3 } else { 1 }
}

fn quotes_at(opening: &Opening) -> usize
    ensures { result ≡ quotes_at opening.now }
{
    opening.len.saturating_sub(quotes_len(&opening.kind))
}

/// Whether one of the characters is a backslash. It looks at each, which is faster than to stop at the first.
fn has_backslash(body: &[char]) -> bool
    ensures { result ≡ list_any (λ c. c == 92) body.now }
{
    let mut found = false;
    for c in body {
        found |= *c == '\\';
    }
    found
}

/// Whether the body is its own value, as most are.
#[tactic(auto, using(crate::proofs::Unchanged::own_value))]
fn is_plain(kind: &StringKind, body: &[char]) -> bool
    ensures { IsTrue result → decoded kind.now body.now ≡ Ok body.now }
{
    !kind.formatted && !has_backslash(body)
}

/// The string of so many characters that stands for these ones: of bytes nothing is kept.
fn valued(
    alloc: Global,
    spellings: &mut Spellings,
    opening: &Opening,
    len: usize,
    value: &[char],
) -> Result<Lexeme, Memory>
    ensures { IfOk result (λ lexeme. lexeme ≡ valued opening.now len value.now) }
{
    if opening.kind.bytes {
        return Ok(Lexeme::Spelled(len, Kind::Bytes, Value::Nothing));
    }
    let text = spellings.text(alloc, value)?;
    Ok(Lexeme::Spelled(len, Kind::Text, Value::Text(text)))
}

fn unformatted(
    alloc: Global,
    spellings: &mut Spellings,
    opening: &Opening,
    body: &[char],
) -> Result<Lexeme, Memory>
    requires { opening.now.len + length body.now < 2 ^ 63 }
    ensures { IfOk result (λ lexeme. lexeme ≡ unformatted opening.now body.now) }
{
    let len = opening.len + body.len() + quotes_len(&opening.kind);
    if !opening.kind.bytes && is_plain(&opening.kind, body) {
        let text = spellings.text(alloc, body)?;
        return Ok(Lexeme::Spelled(len, Kind::Text, Value::Text(text)));
    }
    let room = mem::replace(&mut spellings.value, Vec::new(alloc));
    match decode_in(room, &opening.kind, body) {
        Err(EscapeError::Memory) => Err(Memory),
        Err(EscapeError::Bad(offset)) => {
            let ahead = opening.len + offset.min(body.len());
            Ok(Lexeme::Refused(LexKind::BadEscape, ahead))
        }
        Ok(value) => {
            let lexeme = valued(alloc, spellings, opening, len, &value)?;
            spellings.value = value;
            Ok(lexeme)
        }
    }
}

fn formatted(state: &mut State, opening: &Opening, body: &[char], beyond: usize) -> Piece
    ensures { front_of result state.new ≡ formatted state.old opening.now body.now beyond }
{
    if has_form(&opening.kind, body) {
        state.mode = Mode::Literal(opening.kind, beyond);
        Piece::Found(opening.len, Kind::FStringStart, Value::Nothing)
    } else {
        Piece::Bad(LexKind::FStringForm, quotes_at(opening))
    }
}

fn string_of(
    alloc: Global,
    spellings: &mut Spellings,
    state: &mut State,
    opening: &Opening,
    chars: &[char],
) -> Result<Piece, Memory>
    requires { opening.now.len ≤ length chars.now }
    ensures { IfOk result (λ p. front_of p state.new ≡ string_of state.old opening.now chars.now) }
{
    let (_, rest) = chars.split_at(opening.len);
    match string_body(&opening.kind, rest) {
        None => Ok(Piece::Bad(LexKind::OpenString, quotes_at(opening))),
        Some(len) => {
            let (body, behind) = rest.split_at(len);
            if opening.kind.formatted {
                Ok(formatted(state, opening, body, behind.len()))
            } else {
                Ok(Piece::from(unformatted(alloc, spellings, opening, body)?))
            }
        }
    }
}

/// The string that begins with a quote here (Language Reference, 2.4.1).
pub fn string(
    alloc: Global,
    spellings: &mut Spellings,
    state: &mut State,
    chars: &[char],
) -> Result<Piece, Memory>
    ensures { IfOk result (λ p. front_of p state.new ≡ string state.old chars.now) }
{
    match string_opening(chars) {
        None => Ok(Piece::Bad(LexKind::BadChar, 0)),
        Some(opening) => string_of(alloc, spellings, state, &opening, chars),
    }
}

/// The string with a prefix, or else the keyword or name, that begins with a letter here (Language Reference, 2.3, 2.4.1).
pub fn string_or_word(
    alloc: Global,
    spellings: &mut Spellings,
    state: &mut State,
    first: char,
    rest: &[char],
    chars: &[char],
) -> Result<Piece, Memory>
    requires parts { chars.now ≡ first ∷ rest.now }
    requires letter { IsTrue (is_identifier_start first) }
    ensures { IfOk result (λ p. front_of p state.new ≡ string_or_word state.old chars.now) }
{
    match string_opening(chars) {
        None => Ok(Piece::from(word(alloc, spellings, first, rest, chars)?)),
        Some(opening) => string_of(alloc, spellings, state, &opening, chars),
    }
}
