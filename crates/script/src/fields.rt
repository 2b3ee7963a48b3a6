//! The parts of a line: words, paths, numbers, names and texts, each with the bytes behind it.

ghost use Rattle.std.specs.Prelude.{◌≡◌, ◌+◌, ◌<◌, ◌≤◌, ◌^◌, true, length, nat_lt, IfOk, IfErr};
ghost use Rattle.std.specs.List.{list_all};
ghost use Rattle.std.specs.Option.{SomeIff};
ghost use Rattle.std.specs.Str.{IsAscii, all_ascii_digits};
ghost use Rattle.std.specs.Str.Parse.{digits_value};
ghost use Rattle.script.specs.Grammar.{is_path_byte, space};
ghost use Rattle.script.specs.Reading.{Gives, has, span, word_at, rest_at, none_at, path_at, number_at, line_at, name_at, text_at, is_visible, named_as};
ghost use Rattle.script.specs.declared.faults.Stop.TheVariants as stops;

use crate::faults::{Fault, Stop};
use rv_names::Text;
use std::alloc::Global;

/// The greatest number of bytes of a path.
const PATH_LIMIT: usize = 255;

/// The greatest number of bytes of a name.
const NAME_LIMIT: usize = 4096;

/// What the bytes of a field are.
#[derive(Clone, Copy)]
pub enum Kind {
    /// Letters, digits and `_-./`.
    Path,
    /// Digits.
    Digit,
    /// All but the end of a line.
    Line,
}

fn is_path_byte(byte: u8) -> bool
    ensures { result ≡ is_path_byte byte }
{
    matches!(byte, b'a'..=b'z' | b'A'..=b'Z' | b'-'..=b'9' | b'_')
}

impl Kind {
    fn has(self, byte: u8) -> bool
        ensures { result ≡ has self byte }
    {
        match self {
            Kind::Path => is_path_byte(byte),
            Kind::Digit => byte.is_ascii_digit(),
            Kind::Line => byte != b'\n',
        }
    }

    /// How many bytes at the front are of the kind.
    #[tactic(auto, using(std::proofs::lemmas::List::Sums::prefix_len_is))]
    fn span(self, bytes: &[u8]) -> usize
        ensures value { result ≡ span self bytes.now }
        ensures within { result ≤ length bytes.now }
    {
        for (i, byte) in bytes.iter().enumerate() {
            if !self.has(*byte) {
                return i;
            }
        }
        bytes.len()
    }
}

/// The bytes behind a word.
pub fn word<'a>(bytes: &'a [u8], expected: &[u8]) -> Result<&'a [u8], Stop>
    ensures value { Gives (λ x. x.now) result (word_at expected.now bytes.now) }
    ensures within { IfOk result (λ x. length x.now ≤ length bytes.now) }
{
    if bytes.starts_with(expected) {
        return Ok(&bytes[expected.len()..]);
    }
    if expected.starts_with(bytes) {
        return Err(Stop::Fault(Fault::Line));
    }
    Err(Stop::Fault(Fault::Malformed))
}

/// The bytes behind a field of so many bytes, and behind its end.
fn rest(bytes: &[u8], len: usize, end: u8) -> Result<&[u8], Stop>
    ensures value { Gives (λ x. x.now) result (rest_at len end bytes.now) }
    ensures within { IfOk result (λ x. (length x.now ≤ length bytes.now) × (len < length bytes.now)) }
{
    if bytes.len() <= len {
        return Err(Stop::Fault(Fault::Line));
    }
    if bytes[len] != end {
        return Err(Stop::Fault(Fault::Malformed));
    }
    Ok(&bytes[len + 1..])
}

/// The fault where none of the bytes of a field is there.
fn none_of(bytes: &[u8]) -> Fault
    ensures { result ≡ none_at bytes.now }
{
    if bytes.is_empty() {
        Fault::Line
    } else {
        Fault::Malformed
    }
}

/// A path, up to the byte that ends it.
#[tactic(auto, unfolding(crate::specs::Reading::path_at))]
pub fn path(alloc: Global, bytes: &[u8], end: u8) -> Result<(Text, &[u8]), Stop>
    ensures value { Gives (λ x. (x.0, x.1.now)) result (path_at end bytes.now) }
    ensures within { IfOk result (λ x. length x.1.now ≤ length bytes.now) }
{
    let len = Kind::Path.span(bytes);
    if len == 0 {
        return Err(Stop::Fault(none_of(bytes)));
    }
    if len > PATH_LIMIT {
        return Err(Stop::Fault(Fault::Malformed));
    }
    let after = rest(bytes, len, end)?;
    let path = ascii(alloc, &bytes[..len])?;
    Ok((path, after))
}

/// A text of bytes that are all ASCII, which aren't looked at again.
fn ascii(alloc: Global, bytes: &[u8]) -> Result<Text, Stop>
    requires { IsAscii bytes.now }
    ensures ok { IfOk result (λ t. t ≡ bytes.now) }
    ensures err { IfErr result (λ stop. stop ≡ stops.Memory) }
{
    let text = unsafe { str::from_utf8_unchecked(bytes) };
    Ok(Text::read(alloc, text)?)
}

/// What digits stand for, where it fits 32 bits.
fn value_of(digits: &[u8]) -> Option<u32>
    requires digits { all_ascii_digits digits.now ≡ true }
    requires some { 0 < length digits.now }
    ensures { SomeIff result (digits_value 10 digits.now < 2 ^ 32) (digits_value 10 digits.now) }
{
    let digits = unsafe { str::from_utf8_unchecked(digits) };
    parsed(digits)
}

fn parsed(digits: &str) -> Option<u32>
    requires digits { all_ascii_digits digits.now ≡ true }
    requires some { 0 < length digits.now }
    ensures { SomeIff result (digits_value 10 digits.now < 2 ^ 32) (digits_value 10 digits.now) }
{
    match digits.parse::<u32>() {
        Ok(number) => Some(number),
        Err(_) => None,
    }
}

/// A decimal number without leading zeros, up to the byte that ends it.
#[tactic(auto, unfolding(crate::specs::Reading::number_at))]
pub fn number(bytes: &[u8], low: u32, high: u32, end: u8) -> Result<(u32, &[u8]), Stop>
    ensures value { Gives (λ x. (x.0, x.1.now)) result (number_at low high end bytes.now) }
    ensures within { IfOk result (λ x. length x.1.now ≤ length bytes.now) }
{
    let len = Kind::Digit.span(bytes);
    if len == 0 {
        return Err(Stop::Fault(none_of(bytes)));
    }
    if len > 1 && bytes[0] == b'0' {
        return Err(Stop::Fault(Fault::Malformed));
    }
    let Some(number) = value_of(&bytes[..len]) else {
        return Err(Stop::Fault(Fault::Malformed));
    };
    if number < low || number > high {
        return Err(Stop::Fault(Fault::Malformed));
    }
    let after = rest(bytes, len, end)?;
    Ok((number, after))
}

/// A line of at most so many bytes, and the bytes behind its end.
#[tactic(auto, unfolding(crate::specs::Reading::line_at))]
pub fn line(bytes: &[u8], limit: usize) -> Result<(&[u8], &[u8]), Stop>
    ensures value { Gives (λ x. (x.0.now, x.1.now)) result (line_at limit bytes.now) }
    ensures within { IfOk result (λ x. length x.1.now ≤ length bytes.now) }
{
    let len = Kind::Line.span(bytes);
    if len > limit {
        return Err(Stop::Fault(Fault::Malformed));
    }
    let after = rest(bytes, len, b'\n')?;
    Ok((&bytes[..len], after))
}

/// Whether each byte is above the space, and there is one.
fn is_visible(name: &[u8]) -> bool
    ensures { result ≡ is_visible name.now }
{
    !name.is_empty() & all_visible(name)
}

fn all_visible(name: &[u8]) -> bool
    ensures { result ≡ list_all (λ b. nat_lt space b) name.now }
{
    name.iter().all(|byte| *byte > b' ')
}

/// A line as a name.
fn named(alloc: Global, name: &[u8]) -> Result<Text, Stop>
    ensures { Gives (λ t. t) result (named_as name.now) }
{
    if !is_visible(name) {
        return Err(Stop::Fault(Fault::Malformed));
    }
    match str::from_utf8(name) {
        Ok(name) => Ok(Text::read(alloc, name)?),
        Err(_) => Err(Stop::Fault(Fault::Malformed)),
    }
}

/// A name, up to the end of the line.
#[tactic(auto, unfolding(crate::specs::Reading::name_at))]
pub fn name(alloc: Global, bytes: &[u8]) -> Result<(Text, &[u8]), Stop>
    ensures value { Gives (λ x. (x.0, x.1.now)) result (name_at bytes.now) }
    ensures within { IfOk result (λ x. length x.1.now ≤ length bytes.now) }
{
    let (name, after) = line(bytes, NAME_LIMIT)?;
    let name = named(alloc, name)?;
    Ok((name, after))
}

/// The bytes behind a text that begins at the place `from`, and behind the end of its line.
#[tactic(auto, unfolding(crate::specs::Reading::text_at))]
pub fn text(bytes: &[u8], len: usize, from: usize) -> Result<&[u8], Stop>
    requires { from + len + 1 < 2 ^ 64 }
    ensures value { Gives (λ x. x.now) result (text_at len from bytes.now) }
    ensures within { IfOk result (λ x. length x.now ≤ length bytes.now) }
{
    if bytes.len() <= len {
        return Err(Stop::Fault(Fault::Text {
            until: from + len + 1,
        }));
    }
    if bytes[len] != b'\n' {
        return Err(Stop::Fault(Fault::Malformed));
    }
    Ok(&bytes[len + 1..])
}
