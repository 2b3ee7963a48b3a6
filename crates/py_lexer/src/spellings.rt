//! What words and texts are spelled as.

ghost use Rattle.std.specs.Prelude.{◌≡◌, ◌+◌, ◌≤◌, [], length, IsTrue, IfOk, IfSome, OnOk, IsAscii, encode_utf8_all, string_bytes, vec_len, vec_capacity};
ghost use Rattle.std.specs.List.{list_all};
ghost use Rattle.py_lexer.specs.Spellings.{is_spelled, is_ascii};

use rv_names::{Memory, Text};
use std::alloc::{AllocError, Global};
use std::mem::replace;

/// Whether the characters are this word, and all of ASCII.
pub fn is_spelled(text: &[char], word: &str) -> bool
    ensures { result ≡ is_spelled text.now word.now }
{
    let bytes = word.as_bytes();
    if text.len() != bytes.len() {
        return false;
    }
    for i in 0..text.len() {
        if bytes[i] >= 128 {
            return false;
        }
        if text[i] as u32 != bytes[i] as u32 {
            return false;
        }
    }
    true
}

/// Whether all are of ASCII. It looks at each, which is faster than to stop at the first that isn't.
fn are_ascii(chars: &[char]) -> bool
    ensures { result ≡ list_all is_ascii chars.now }
{
    let mut plain = true;
    for c in chars {
        plain &= (*c as u32) < 128;
    }
    plain
}

/// Puts the bytes of the characters into the empty vector: whether all are of ASCII. It looks at each, which is faster than to
/// stop at the first that isn't.
#[tactic(auto, using(crate::proofs::Unchanged::ascii_turn))]
fn push_ascii(bytes: &mut Vec<u8>, chars: &[char]) -> bool
    requires room { vec_len bytes.old + length chars.now ≤ vec_capacity bytes.old }
    requires empty { bytes.old.items ≡ [] }
    ensures value { IsTrue result → bytes.new.items ≡ encode_utf8_all chars.now }
    ensures ascii { IsAscii bytes.new.items }
{
    let mut plain = true;
    for c in chars {
        let code = *c as u32;
        plain &= code < 128;
        bytes.push_reserved((code % 128) as u8);
    }
    plain
}

/// The characters in UTF-8, where all are of ASCII.
fn ascii_text(alloc: Global, chars: &[char]) -> Result<Option<String>, AllocError>
    ensures { IfOk result (λ found. IfSome found (λ text. string_bytes text ≡ encode_utf8_all chars.now)) }
{
    let mut bytes = Vec::with_capacity(alloc, chars.len())?;
    if push_ascii(&mut bytes, chars) {
        Ok(Some(unsafe { String::from_utf8_unchecked(bytes) }))
    } else {
        Ok(None)
    }
}

/// Puts the characters in the place of what the string held, where all are of ASCII. Where not, its room is given up.
fn spell_ascii(alloc: Global, spelling: &mut String, text: &[char]) -> Result<bool, AllocError>
    ensures { IfOk result (λ all. IsTrue all → string_bytes spelling.new ≡ encode_utf8_all text.now) }
{
    let mut bytes = replace(spelling, String::new(alloc)).into_bytes();
    bytes.clear();
    bytes.reserve(text.len())?;
    if !push_ascii(&mut bytes, text) {
        return Ok(false);
    }
    *spelling = unsafe { String::from_utf8_unchecked(bytes) };
    Ok(true)
}

/// Puts the characters in UTF-8 in the place of what the string held, one by one.
fn spell_each(spelling: &mut String, text: &[char]) -> Result<(), AllocError>
    ensures { OnOk result (string_bytes spelling.new ≡ encode_utf8_all text.now) }
{
    spelling.clear();
    for c in text {
        spelling.push(*c)?;
    }
    Ok(())
}

/// Puts the characters in UTF-8 in the place of what the string held.
pub fn spell(alloc: Global, spelling: &mut String, text: &[char]) -> Result<(), AllocError>
    ensures { OnOk result (string_bytes spelling.new ≡ encode_utf8_all text.now) }
{
    if are_ascii(text) && spell_ascii(alloc, spelling, text)? {
        return Ok(());
    }
    spell_each(spelling, text)
}

/// Room for the spelling of one word or text, and for what the characters of one string stand for, which is kept while texts
/// are read.
#[derive(Debug, Drop)]
pub struct Spellings {
    pub room: String,
    pub value: Vec<char>,
}

impl Spellings {
    /// No room yet, which takes no memory.
    pub fn new(alloc: Global) -> Spellings {
        Spellings {
            room: String::new(alloc),
            value: Vec::new(alloc),
        }
    }

    /// The characters as a text. A short one of ASCII takes no memory.
    pub fn text(&mut self, alloc: Global, chars: &[char]) -> Result<Text, Memory>
        ensures { IfOk result (λ text. text ≡ encode_utf8_all chars.now) }
    {
        if let Some(text) = Text::ascii(chars) {
            return Ok(text);
        }
        if are_ascii(chars) {
            if let Some(text) = ascii_text(alloc, chars)? {
                return Text::from_string(text);
            }
        }
        spell(alloc, &mut self.room, chars)?;
        Text::read(alloc, self.room.as_str())
    }
}
