ghost use Rattle.std.specs.Prelude.{◌≡◌, ◌+◌, ◌<◌, ◌≤◌, ℕ, Ok, Err, IfOk, IfSome, length};
ghost use Rattle.py_literals.specs.declared.escape.EscapeError.TheVariants.{Bad};
ghost use Rattle.py_literals.specs.declared.escape.Meaning.TheVariants.{Stands};
ghost use Rattle.py_literals.specs.Escape.{decoded, meaning, extent, escape, named_escape, hex_escape, hex_from, octal_escape, short_escape};
ghost use Rattle.std.specs.Char.{digit_value};

use crate::digit::{digit_value_of, is_digit};
use crate::formatted::is_doubled_brace;
use crate::text::StringKind;
use std::alloc::{AllocError, AllocFailed, Global};

/// Why a string's body has no value.
#[derive(Clone, Copy, Debug, PartialEq, Eq, Drop)]
pub enum EscapeError {
    /// The backslash at this offset of the body begins an escape that names no character.
    Bad(usize),
    /// Memory ran out.
    Memory,
}

impl<T: Drop> From<AllocFailed<T>> for EscapeError {
    ghost use Rattle.std.specs.Prelude.{◌≡◌};
    ghost use Rattle.py_literals.specs.declared.escape.EscapeError.TheVariants.{Memory};

    ghost from_gives = { λ _ e. e ≡ Memory };

    fn from(_error: AllocFailed<T>) -> Self {
        EscapeError::Memory
    }
}

impl From<AllocError> for EscapeError {
    ghost use Rattle.std.specs.Prelude.{◌≡◌};
    ghost use Rattle.py_literals.specs.declared.escape.EscapeError.TheVariants.{Memory};

    ghost from_gives = { λ _ e. e ≡ Memory };

    fn from(_error: AllocError) -> Self {
        EscapeError::Memory
    }
}

/// What the characters at the front of a body stand for.
#[derive(Clone, Copy, Drop)]
enum Meaning {
    /// One character, for so many characters of the body.
    Stands(char, usize),
    /// Nothing: a backslash and a line end.
    Joined,
    /// A backslash that begins no escape and may not stand for itself.
    Refused,
}

/// The character of so many hexadecimal digits.
#[tactic(auto, using(crate::proofs::Turns::hex_turn, crate::proofs::Turns::hex_short, crate::proofs::Turns::hex_other, crate::proofs::Turns::hex_great, crate::proofs::Turns::character_is, std::proofs::lemmas::Grind::common_steps))]
fn hex(chars: &[char], count: usize) -> Option<char>
    ensures value { result ≡ hex_from 0 count chars.now }
    ensures within { IfSome result (λ _. count ≤ length chars.now) }
{
    let mut rest = chars;
    let mut left = count;
    let mut value: u32 = 0;
    'digits: while left > 0 {
        match rest {
            [c, after @ ..] if is_digit(*c, 16) && value <= 0x10_FFFF => {
                value = value * 16 + digit_value_of(*c);
                rest = after;
                left -= 1;
            }
            _ => return None,
        }
    }
    char::from_u32(value)
}

fn hex_meaning(chars: &[char], count: usize) -> Meaning
    requires { count ≤ 8 }
    ensures value { result ≡ hex_escape count chars.now }
    ensures within { extent result ≤ 2 + length chars.now }
    ensures some { 0 < extent result }
{
    match hex(chars, count) {
        Some(c) => Meaning::Stands(c, count + 2),
        None => Meaning::Refused,
    }
}

/// An escape of n characters for this code.
fn octal_stands(code: u32, n: usize) -> Meaning
    requires { code < 512 }
    ensures { result ≡ Stands code n }
{
    match char::from_u32(code) {
        Some(c) => Meaning::Stands(c, n),
        None => unreachable!(),
    }
}

/// The character of one to three octal digits, the first of which is given.
fn octal_meaning(first: char, chars: &[char]) -> Meaning
    requires { digit_value first < 8 }
    ensures value { result ≡ octal_escape first chars.now }
    ensures within { extent result ≤ 2 + length chars.now }
    ensures some { 0 < extent result }
{
    let value = digit_value_of(first);
    match chars {
        [c, d, ..] if is_digit(*c, 8) && is_digit(*d, 8) => {
            let value = (value * 8 + digit_value_of(*c)) * 8 + digit_value_of(*d);
            octal_stands(value, 4)
        }
        [c, ..] if is_digit(*c, 8) => {
            let value = value * 8 + digit_value_of(*c);
            octal_stands(value, 3)
        }
        _ => octal_stands(value, 2),
    }
}

#[tactic(auto, unfolding(crate::specs::Escape::short_escape))]
fn short_meaning(c: char) -> char
    ensures { result ≡ short_escape c }
{
    match c {
        '\\' | '\'' | '"' => c,
        'a' => '\x07',
        'b' => '\x08',
        'f' => '\x0c',
        'n' => '\n',
        'r' => '\r',
        't' => '\t',
        'v' => '\x0b',
        _ => '\0',
    }
}

fn named_meaning(c: char, chars: &[char]) -> Meaning
    ensures value { result ≡ named_escape c chars.now }
    ensures within { extent result ≤ 2 + length chars.now }
    ensures some { 0 < extent result }
{
    match c {
        'N' => Meaning::Refused,
        'u' => hex_meaning(chars, 4),
        'U' => hex_meaning(chars, 8),
        _ => Meaning::Stands('\\', 1),
    }
}

/// A backslash, by what follows it.
fn escape_meaning(bytes: bool, chars: &[char]) -> Meaning
    ensures value { result ≡ escape bytes chars.now }
    ensures within { extent result ≤ 1 + length chars.now }
    ensures some { 0 < extent result }
{
    let [c, rest @ ..] = chars else {
        return Meaning::Stands('\\', 1);
    };
    let short = short_meaning(*c);
    if *c == '\n' {
        Meaning::Joined
    } else if short != '\0' {
        Meaning::Stands(short, 2)
    } else if is_digit(*c, 8) {
        octal_meaning(*c, rest)
    } else if *c == 'x' {
        hex_meaning(rest, 2)
    } else if bytes {
        Meaning::Stands('\\', 1)
    } else {
        named_meaning(*c, rest)
    }
}

fn meaning_of(kind: &StringKind, c: char, rest: &[char]) -> Meaning
    ensures value { result ≡ meaning kind.now c rest.now }
    ensures within { extent result ≤ 1 + length rest.now }
    ensures some { 0 < extent result }
{
    if c == '\\' && !kind.raw {
        escape_meaning(kind.bytes, rest)
    } else if kind.formatted && is_doubled_brace(c, rest) {
        Meaning::Stands(c, 2)
    } else {
        Meaning::Stands(c, 1)
    }
}

/// The value of a string's body, or of a text piece of a formatted string's body, in which `{{` and `}}`
/// stand for braces. A raw body is its own value, a backslash that begins no escape stays as it is, and in
/// bytes `\N`, `\u` and `\U` are no escapes.
///
/// `Bad` comes where the body isn't raw and has a `\N` (not in bytes), or a `\x`, `\u` or `\U` (the last two
/// not in bytes) without its two, four or eight digits or with those of a surrogate or of no character: it has
/// the offset of the first such backslash.
///
/// Python Language Reference, 2.4.1.1. Linear in the length of the body.
pub fn decode(alloc: Global, kind: &StringKind, body: &[char]) -> Result<Vec<char>, EscapeError>
    ensures value { IfOk result (λ v. decoded kind.now body.now ≡ Ok v.items) }
    ensures bad { (n : ℕ) → result ≡ Err (Bad n) → decoded kind.now body.now ≡ Err n }
{
    decode_in(Vec::new(alloc), kind, body)
}

/// As `decode`, in this room, which is lost where there is no value.
#[tactic(auto, using(crate::proofs::Turns::decoded_turn, crate::proofs::Turns::joined_turn, crate::proofs::Turns::decoded_refused, std::proofs::lemmas::Grind::common_steps))]
pub fn decode_in(
    room: Vec<char>,
    kind: &StringKind,
    body: &[char],
) -> Result<Vec<char>, EscapeError>
    ensures value { IfOk result (λ v. decoded kind.now body.now ≡ Ok v.items) }
    ensures bad { (n : ℕ) → result ≡ Err (Bad n) → decoded kind.now body.now ≡ Err n }
{
    let mut value = room;
    value.clear();
    value.reserve(body.len())?;
    let mut rest = body;
    let mut offset = 0;
    'pieces: while let [c, after @ ..] = rest {
        match meaning_of(kind, *c, after) {
            Meaning::Stands(v, n) => {
                value.push_reserved(v);
                rest = &rest[n..];
                offset += n;
            }
            Meaning::Joined => {
                rest = &rest[2..];
                offset += 2;
            }
            Meaning::Refused => return Err(EscapeError::Bad(offset)),
        }
    }
    Ok(value)
}
