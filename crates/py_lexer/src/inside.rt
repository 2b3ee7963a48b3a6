//! What stands inside a logical line.

ghost use Rattle.std.specs.Prelude.{◌≡◌, ◌∷◌, ◌≤◌, ◌<◌, ◌+◌, length, IfOk, OnOk};
ghost use Rattle.py_lexer.specs.Front.{front_of};
ghost use Rattle.py_lexer.specs.Words.{next_is};
ghost use Rattle.py_lexer.specs.Chars.{is_digit};
ghost use Rattle.py_lexer.specs.Inside.{line_end, join, bracketed, operator, number_or_operator, inside};

use crate::chars::{Class, class_of, is_digit, line_len, white_len};
use crate::operators::longest_operator;
use crate::piece::Piece;
use crate::spellings::Spellings;
use crate::state::{Mode, State};
use crate::strings::{string, string_or_word};
use crate::token::{Kind, LexKind, Value};
use crate::words::number_front;
use py_literals::place::Pos;
use rv_names::Memory;
use std::alloc::Global;

fn line_end(state: &mut State) -> Piece
    ensures { front_of result state.new ≡ line_end state.old state.old.brackets }
{
    match state.brackets.innermost() {
        None => {
            state.mode = Mode::LineStart;
            Piece::Found(1, Kind::Newline, Value::Nothing)
        }
        Some(_) => Piece::Passed(1),
    }
}

fn join(state: &mut State, rest: &[char]) -> Piece
    ensures { front_of result state.new ≡ join state.old rest.now }
{
    match rest {
        ['\n', ..] => Piece::Passed(2),
        _ => Piece::Bad(LexKind::BadChar, 0),
    }
}

/// Opens or closes the bracket, which stands at this place. In a field none counts.
#[inline(always)]
pub fn bracket(at: Pos, state: &mut State, sign: char) -> Result<(), Memory>
    ensures { OnOk result (state.new ≡ bracketed at state.old sign) }
{
    match state.mode {
        Mode::Field(_, _) => Ok(()),
        _ => match sign {
            '(' | '[' | '{' => state.brackets.open(at),
            ')' | ']' | '}' => {
                state.brackets.close();
                Ok(())
            }
            _ => Ok(()),
        },
    }
}

fn operator(
    at: Pos,
    state: &mut State,
    first: char,
    rest: &[char],
    chars: &[char],
) -> Result<Piece, Memory>
    requires { chars.now ≡ first ∷ rest.now }
    ensures { IfOk result (λ p. front_of p state.new ≡ operator at state.old first rest.now) }
{
    match longest_operator(chars) {
        None => Ok(Piece::Bad(LexKind::BadChar, 0)),
        Some(found) => {
            bracket(at, state, first)?;
            Ok(Piece::Found(found.len, found.kind, Value::Nothing))
        }
    }
}

/// Whether a digit is next.
pub fn next_is_digit(rest: &[char]) -> bool
    ensures { result ≡ next_is is_digit rest.now }
{
    match rest {
        [] => false,
        [c, ..] => is_digit(*c),
    }
}

fn number_or_operator(
    at: Pos,
    state: &mut State,
    first: char,
    rest: &[char],
    chars: &[char],
) -> Result<Piece, Memory>
    requires { chars.now ≡ first ∷ rest.now }
    ensures { IfOk result (λ p. front_of p state.new ≡ number_or_operator at state.old first rest.now) }
{
    if next_is_digit(rest) {
        Ok(Piece::from(number_front(chars)))
    } else {
        operator(at, state, first, rest, chars)
    }
}

/// What stands at the front inside a logical line, by its first character.
pub fn inside(
    alloc: Global,
    spellings: &mut Spellings,
    at: Pos,
    state: &mut State,
    first: char,
    rest: &[char],
    chars: &[char],
) -> Result<Piece, Memory>
    requires { chars.now ≡ first ∷ rest.now }
    ensures { IfOk result (λ p. front_of p state.new ≡ inside at state.old first rest.now) }
{
    match class_of(first) {
        Class::White => Ok(Piece::Passed(1 + white_len(rest))),
        Class::LineEnd => Ok(line_end(state)),
        Class::Comment => Ok(Piece::Passed(1 + line_len(rest))),
        Class::Backslash => Ok(join(state, rest)),
        Class::Quote => string(alloc, spellings, state, chars),
        Class::Digit => Ok(Piece::from(number_front(chars))),
        Class::Dot => number_or_operator(at, state, first, rest, chars),
        Class::Letter => string_or_word(alloc, spellings, state, first, rest, chars),
        Class::Sign => operator(at, state, first, rest, chars),
    }
}
