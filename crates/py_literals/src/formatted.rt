ghost use Rattle.std.specs.Prelude.{◌≡◌, ◌<◌, ◌≤◌, length, true, false};
ghost use Rattle.py_literals.specs.Formatted.{is_field_char, is_doubled, begins_doubled, is_one_line, is_formed, has_form, text_len, field_len};

use crate::text::StringKind;

fn is_in_field(c: char) -> bool
    ensures { result ≡ is_field_char c }
{
    !matches!(c, '\'' | '"' | '{' | '}' | '\\' | '!' | ':' | '#' | '\n')
}

pub(crate) fn is_doubled_brace(c: char, rest: &[char]) -> bool
    ensures value { result ≡ is_doubled c rest.now }
    ensures room { result ≡ true → 0 < length rest.now }
{
    match rest {
        [d, ..] => (c == '{' || c == '}') && *d == c,
        [] => false,
    }
}

#[tactic(auto, unfolding(crate::specs::Formatted::begins_doubled))]
fn has_doubled_brace(chars: &[char]) -> bool
    ensures value { result ≡ begins_doubled chars.now }
    ensures room { result ≡ true → 1 < length chars.now }
{
    match chars {
        [c, rest @ ..] => is_doubled_brace(*c, rest),
        [] => false,
    }
}

fn is_single_line(chars: &[char]) -> bool
    ensures { result ≡ is_one_line chars.now }
{
    chars.iter().all(|c| *c != '\n')
}

/// Text with each brace doubled, and fields between single braces.
#[tactic(auto, using(crate::proofs::Turns::formed_doubled, crate::proofs::Turns::formed_text, crate::proofs::Turns::formed_not, std::proofs::lemmas::Grind::common_steps))]
fn is_text_and_fields(body: &[char]) -> bool
    ensures { result ≡ is_formed false body.now }
{
    let mut rest = body;
    let mut inside = false;
    'pieces: while let [c, after @ ..] = rest {
        if inside {
            if *c == '}' {
                inside = false;
            } else if !is_in_field(*c) {
                return false;
            }
            rest = after;
        } else if has_doubled_brace(rest) {
            rest = &rest[2..];
        } else if *c == '}' {
            return false;
        } else {
            inside = *c == '{';
            rest = after;
        }
    }
    !inside
}

/// Whether the body of a formatted string has the form that is read here: the string isn't raw, stands on
/// one line, and is text, in which `{{` and `}}` stand for braces, with fields between single braces that hold
/// no quote, brace, backslash, `!`, `:` or `#`. A backslash before a brace changes nothing: the brace counts.
///
/// A part of Python Language Reference, 2.4.3. Linear in the length of the body.
pub fn has_form(kind: &StringKind, body: &[char]) -> bool
    ensures { result ≡ has_form kind.now body.now }
{
    !kind.raw && is_single_line(body) && is_text_and_fields(body)
}

/// How many characters of text stand at the front of what is left of a formatted string's body: up to the
/// `{` of the next field, or to the end. `decode` gives their value.
pub fn text_len(chars: &[char]) -> usize
    ensures value { result ≡ text_len chars.now }
    ensures within { result ≤ length chars.now }
{
    let mut rest = chars;
    let mut len = 0;
    'texts: while let [c, after @ ..] = rest {
        let taken = if is_doubled_brace(*c, after) {
            2
        } else if *c == '{' {
            return len;
        } else {
            1
        };
        rest = &rest[taken..];
        len += taken;
    }
    len
}

/// How many characters a field has that begins here, behind its `{`.
pub fn field_len(chars: &[char]) -> usize
    ensures value { result ≡ field_len chars.now }
    ensures within { result ≤ length chars.now }
{
    chars.iter().take_while(|c| is_in_field(**c)).count()
}
