//! A text as its lexical analysis reads it.

ghost use Rattle.std.specs.Prelude.{◌≡◌, ◌≤◌, ◌==◌, length, IfOk, IsTrue, chars, false};
ghost use Rattle.std.specs.List.{list_all, list_any};
ghost use Rattle.py_lexer.specs.Source.{line_ends, without_mark, source_chars, is_plain};

use rv_names::Memory;
use std::alloc::{AllocError, Global};

fn is_plain_byte(byte: u8) -> bool
    ensures { result ≡ is_plain byte }
{
    (byte < 128) & (byte != b'\r')
}

/// Whether all are bytes of ASCII other than CR. It looks at each, which is faster than to stop at the first.
fn are_plain(bytes: &[u8]) -> bool
    ensures { result ≡ list_all is_plain bytes.now }
{
    let mut plain = true;
    for byte in bytes {
        plain &= is_plain_byte(*byte);
    }
    plain
}

/// The characters of bytes of ASCII, in this room.
fn widened(room: Vec<char>, bytes: &[u8]) -> Result<Vec<char>, AllocError>
    ensures same { IfOk result (λ v. v.items ≡ bytes.now) }
{
    let mut chars = room;
    chars.clear();
    chars.reserve(bytes.len())?;
    for byte in bytes {
        chars.push_reserved(*byte as char);
    }
    Ok(chars)
}

/// The characters of a text, in this room.
fn chars_of(room: Vec<char>, text: &str) -> Result<Vec<char>, AllocError>
    ensures same { IfOk result (λ v. v.items ≡ chars text.now) }
    ensures short { IfOk result (λ v. length v.items ≤ length text.now) }
{
    let mut chars = room;
    chars.clear();
    chars.reserve(text.len())?;
    chars.extend(text.chars())?;
    Ok(chars)
}

fn without_mark(chars: &[char]) -> &[char]
    ensures value { result.now ≡ without_mark chars.now }
    ensures short { length result.now ≤ length chars.now }
{
    match chars {
        ['\u{feff}', rest @ ..] => rest,
        _ => chars,
    }
}

/// Whether one of the characters is a CR. It looks at each, which is faster than to stop at the first.
fn has_return(chars: &[char]) -> bool
    ensures { result ≡ list_any (λ c. c == 13) chars.now }
{
    let mut found = false;
    for c in chars {
        found |= *c == '\r';
    }
    found
}

fn has_mark(chars: &[char]) -> bool
    ensures { result ≡ false → without_mark chars.now ≡ chars.now }
{
    matches!(chars, ['\u{feff}', ..])
}

/// Whether nothing changes where the characters are read: most texts have neither a byte order mark nor a CR.
#[tactic(auto, using(crate::proofs::Unchanged::read_as_it_is))]
fn is_read_as_it_is(chars: &[char]) -> bool
    ensures { IsTrue result → source_chars chars.now ≡ chars.now }
{
    !has_mark(chars) && !has_return(chars)
}

fn line_ends(alloc: Global, chars: &[char]) -> Result<Vec<char>, Memory>
    ensures same { IfOk result (λ v. v.items ≡ line_ends false chars.now) }
    ensures short { IfOk result (λ v. length v.items ≤ length chars.now) }
{
    let mut read = Vec::new(alloc);
    let mut behind_cr = false;
    for c in chars {
        if *c == '\r' {
            read.push('\n')?;
            behind_cr = true;
        } else if behind_cr && *c == '\n' {
            behind_cr = false;
        } else {
            read.push(*c)?;
            behind_cr = false;
        }
    }
    Ok(read)
}

/// The characters of a text without the byte order mark at its start, each line end (CR LF, CR or LF) as one LF
/// (Language Reference, 2.1.2 and 2.1.4). They stand in this room, if no CR and no mark is left out. Linear in the text.
#[tactic(auto, using(crate::proofs::Unchanged::plain_source))]
pub fn source_chars(alloc: Global, room: Vec<char>, text: &str) -> Result<Vec<char>, Memory>
    ensures same { IfOk result (λ v. v.items ≡ source_chars (chars text.now)) }
    ensures short { IfOk result (λ v. length v.items ≤ length text.now) }
{
    if are_plain(text.as_bytes()) {
        return Ok(widened(room, text.as_bytes())?);
    }
    let chars = chars_of(room, text)?;
    if is_read_as_it_is(&chars) {
        Ok(chars)
    } else {
        line_ends(alloc, without_mark(&chars))
    }
}
