//! Characters, by what they may begin.

ghost use Rattle.std.specs.Prelude.{◌≡◌, ◌≤◌, length};
ghost use Rattle.std.specs.List.{prefix_len};
ghost use Rattle.rv_names.specs.Identifier.{is_identifier_continue};
ghost use Rattle.py_lexer.specs.Chars.{class_of, is_white, is_in_line, is_digit};

use rv_names::{is_identifier_continue, is_identifier_start};

/// What a character may begin.
#[derive(Clone, Copy, Debug, PartialEq, Eq)]
pub enum Class {
    /// White space within a line.
    White,
    /// A line end.
    LineEnd,
    /// A comment.
    Comment,
    /// A backslash, which joins its line to the next one.
    Backslash,
    /// A string without a prefix.
    Quote,
    /// A number.
    Digit,
    /// A number, or an operator.
    Dot,
    /// A name, a keyword, or a string with a prefix.
    Letter,
    /// An operator, or nothing.
    Sign,
}

/// Whether a name may go on with each character of ASCII.
static CONTINUES: [bool; 128] = [
    false, false, false, false, false, false, false, false, false, false, false, false, false,
    false, false, false, false, false, false, false, false, false, false, false, false, false,
    false, false, false, false, false, false, false, false, false, false, false, false, false,
    false, false, false, false, false, false, false, false, false, true, true, true, true, true,
    true, true, true, true, true, false, false, false, false, false, false, false, true, true,
    true, true, true, true, true, true, true, true, true, true, true, true, true, true, true, true,
    true, true, true, true, true, true, true, true, false, false, false, false, true, false, true,
    true, true, true, true, true, true, true, true, true, true, true, true, true, true, true, true,
    true, true, true, true, true, true, true, true, true, false, false, false, false, false,
];

/// Whether a name may go on with the character. One of ASCII is looked up.
#[inline(always)]
pub fn may_continue_name(c: char) -> bool
    ensures { result ≡ is_identifier_continue c }
{
    if (c as u32) < 128 {
        CONTINUES[c as usize]
    } else {
        is_identifier_continue(c)
    }
}

/// What each character of ASCII may begin.
static CLASSES: [Class; 128] = [
    Class::Sign,
    Class::Sign,
    Class::Sign,
    Class::Sign,
    Class::Sign,
    Class::Sign,
    Class::Sign,
    Class::Sign,
    Class::Sign,
    Class::White,
    Class::LineEnd,
    Class::Sign,
    Class::White,
    Class::Sign,
    Class::Sign,
    Class::Sign,
    Class::Sign,
    Class::Sign,
    Class::Sign,
    Class::Sign,
    Class::Sign,
    Class::Sign,
    Class::Sign,
    Class::Sign,
    Class::Sign,
    Class::Sign,
    Class::Sign,
    Class::Sign,
    Class::Sign,
    Class::Sign,
    Class::Sign,
    Class::Sign,
    Class::White,
    Class::Sign,
    Class::Quote,
    Class::Comment,
    Class::Sign,
    Class::Sign,
    Class::Sign,
    Class::Quote,
    Class::Sign,
    Class::Sign,
    Class::Sign,
    Class::Sign,
    Class::Sign,
    Class::Sign,
    Class::Dot,
    Class::Sign,
    Class::Digit,
    Class::Digit,
    Class::Digit,
    Class::Digit,
    Class::Digit,
    Class::Digit,
    Class::Digit,
    Class::Digit,
    Class::Digit,
    Class::Digit,
    Class::Sign,
    Class::Sign,
    Class::Sign,
    Class::Sign,
    Class::Sign,
    Class::Sign,
    Class::Sign,
    Class::Letter,
    Class::Letter,
    Class::Letter,
    Class::Letter,
    Class::Letter,
    Class::Letter,
    Class::Letter,
    Class::Letter,
    Class::Letter,
    Class::Letter,
    Class::Letter,
    Class::Letter,
    Class::Letter,
    Class::Letter,
    Class::Letter,
    Class::Letter,
    Class::Letter,
    Class::Letter,
    Class::Letter,
    Class::Letter,
    Class::Letter,
    Class::Letter,
    Class::Letter,
    Class::Letter,
    Class::Letter,
    Class::Letter,
    Class::Sign,
    Class::Backslash,
    Class::Sign,
    Class::Sign,
    Class::Letter,
    Class::Sign,
    Class::Letter,
    Class::Letter,
    Class::Letter,
    Class::Letter,
    Class::Letter,
    Class::Letter,
    Class::Letter,
    Class::Letter,
    Class::Letter,
    Class::Letter,
    Class::Letter,
    Class::Letter,
    Class::Letter,
    Class::Letter,
    Class::Letter,
    Class::Letter,
    Class::Letter,
    Class::Letter,
    Class::Letter,
    Class::Letter,
    Class::Letter,
    Class::Letter,
    Class::Letter,
    Class::Letter,
    Class::Letter,
    Class::Letter,
    Class::Sign,
    Class::Sign,
    Class::Sign,
    Class::Sign,
    Class::Sign,
];

/// What the character may begin. One of ASCII is looked up.
#[inline(always)]
pub fn class_of(c: char) -> Class
    ensures { result ≡ class_of c }
{
    if (c as u32) < 128 {
        CLASSES[c as usize]
    } else if is_identifier_start(c) {
        Class::Letter
    } else {
        Class::Sign
    }
}

/// Whether it is a space, a tab or a form feed.
pub fn is_white(c: char) -> bool
    ensures { result ≡ is_white c }
{
    matches!(c, ' ' | '\t' | '\x0c')
}

/// Whether it is an ASCII digit.
pub fn is_digit(c: char) -> bool
    ensures { result ≡ is_digit c }
{
    matches!(c, '0'..='9')
}

/// How many characters of white space stand at the front.
pub fn white_len(chars: &[char]) -> usize
    ensures value { result ≡ prefix_len is_white chars.now }
    ensures within { result ≤ length chars.now }
{
    chars.iter().take_while(|c| is_white(**c)).count()
}

/// How many characters stand before the line end.
pub fn line_len(chars: &[char]) -> usize
    ensures value { result ≡ prefix_len is_in_line chars.now }
    ensures within { result ≤ length chars.now }
{
    chars.iter().take_while(|c| **c != '\n').count()
}

/// How many characters at the front may continue a name.
pub fn name_len(chars: &[char]) -> usize
    ensures value { result ≡ prefix_len is_identifier_continue chars.now }
    ensures within { result ≤ length chars.now }
{
    let mut len = 0;
    for c in chars {
        if !may_continue_name(*c) {
            return len;
        }
        len += 1;
    }
    len
}
