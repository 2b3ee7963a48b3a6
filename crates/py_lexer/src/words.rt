//! Keywords, names and numbers.

ghost use Rattle.std.specs.Prelude.{◌≡◌, ◌∷◌, ◌≤◌, ◌<◌, length, take, IfOk, IsTrue, Some, None, encode_utf8_all};
ghost use Rattle.rv_names.specs.Identifier.{is_identifier_start, is_identifier_continue, is_spelled_as_identifier};
ghost use Rattle.py_lexer.specs.Words.{next_is, IsNarrow, word_by, word_of, word_len, word, number_of, number_by, number};

use crate::chars::{may_continue_name, name_len};
use crate::keywords::keyword_of;
use crate::piece::Lexeme;
use crate::spellings::{Spellings, spell};
use crate::token::{Kind, LexKind, Value};
use py_literals::number::{NumberValue, number};
use rv_names::{Memory, Name, NameFault};
use std::alloc::Global;

/// The name of this spelling.
fn read_name(alloc: Global, text: &[char], spelled: &str) -> Result<Lexeme, Memory>
    requires identifier { IsTrue (is_spelled_as_identifier text.now) }
    requires same { spelled.now ≡ encode_utf8_all text.now }
    ensures { IfOk result (λ lexeme. lexeme ≡ word_by (length text.now) text.now None) }
{
    match Name::read(alloc, spelled) {
        Ok(name) => Ok(Lexeme::Spelled(text.len(), Kind::Name, Value::Name(name))),
        Err(NameFault::NotIdent) => Ok(Lexeme::Refused(LexKind::NotNormal, 0)),
        Err(NameFault::Memory) => Err(Memory),
    }
}

fn name_of(alloc: Global, spellings: &mut Spellings, text: &[char]) -> Result<Lexeme, Memory>
    requires { IsTrue (is_spelled_as_identifier text.now) }
    ensures { IfOk result (λ lexeme. lexeme ≡ word_by (length text.now) text.now None) }
{
    if let Some(name) = Name::ascii(text) {
        return Ok(Lexeme::Spelled(text.len(), Kind::Name, Value::Name(name)));
    }
    spell(alloc, &mut spellings.room, text)?;
    read_name(alloc, text, spellings.room.as_str())
}

fn word_of(alloc: Global, spellings: &mut Spellings, text: &[char]) -> Result<Lexeme, Memory>
    requires { IsTrue (is_spelled_as_identifier text.now) }
    ensures { IfOk result (λ lexeme. lexeme ≡ word_of (length text.now) text.now) }
{
    match keyword_of(text) {
        Some(keyword) => Ok(Lexeme::Spelled(text.len(), keyword, Value::Nothing)),
        None => name_of(alloc, spellings, text),
    }
}

/// The keyword or name that begins with a letter here.
pub fn word(
    alloc: Global,
    spellings: &mut Spellings,
    first: char,
    rest: &[char],
    chars: &[char],
) -> Result<Lexeme, Memory>
    requires parts { chars.now ≡ first ∷ rest.now }
    requires letter { IsTrue (is_identifier_start first) }
    ensures { IfOk result (λ lexeme. lexeme ≡ word chars.now) }
{
    let len = 1 + name_len(rest);
    let (text, _) = chars.split_at(len);
    word_of(alloc, spellings, text)
}

fn continues(chars: &[char]) -> bool
    ensures { result ≡ next_is is_identifier_continue chars.now }
{
    match chars {
        [] => false,
        [c, ..] => may_continue_name(*c),
    }
}

fn number_of(len: usize, value: NumberValue) -> Lexeme
    requires { IsNarrow value }
    ensures { result ≡ number_of len value }
{
    match value {
        NumberValue::Whole(value) => Lexeme::Spelled(
            len,
            Kind::Number,
            Value::Whole(value as i128),
        ),
        NumberValue::Wide => Lexeme::Refused(LexKind::WideNumber, 0),
        NumberValue::Float => Lexeme::Spelled(len, Kind::Float, Value::Nothing),
    }
}

/// The number that begins with a digit, or with a point and a digit, here.
pub fn number_front(chars: &[char]) -> Lexeme
    ensures { result ≡ number chars.now }
{
    match number(chars) {
        None => Lexeme::Refused(LexKind::BadNumber, 0),
        Some(front) => {
            let (_, rest) = chars.split_at(front.len);
            if continues(rest) {
                Lexeme::Refused(LexKind::BadNumber, 0)
            } else {
                number_of(front.len, front.value)
            }
        }
    }
}
