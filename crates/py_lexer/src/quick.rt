//! Most tokens inside a logical line: they are pushed at once, without a `Piece` of their own.

ghost use Rattle.std.specs.Prelude.{◌≡◌, ◌∷◌, ◌++◌, ◌+◌, ◌≤◌, ◌<◌, [], length, take, drop, false, None, IfOk, IfSome, OnOk, IsTrue};
ghost use Rattle.std.specs.List.{list_any, prefix_len};
ghost use Rattle.rv_names.specs.Identifier.{is_identifier_start, is_spelled_as_identifier};
ghost use Rattle.py_lexer.specs.declared.state.State.{State};
ghost use Rattle.py_lexer.specs.declared.token.Value.TheVariants.{Nothing};
ghost use Rattle.py_lexer.specs.Chars.{is_line_end, is_quote};
ghost use Rattle.py_lexer.specs.Front.{front_of_lexeme};
ghost use Rattle.py_lexer.specs.Words.{word_by, word_len, word};
ghost use Rattle.py_lexer.specs.Inside.{operator};
ghost use Rattle.py_lexer.specs.Pieces.{piece};
ghost use Rattle.py_lexer.specs.Runs.{token};
ghost use Rattle.py_lexer.specs.Strings.{string};
ghost use Rattle.py_lexer.specs.Quick.{IsPushed, IsLineEnded, has_quote_near, is_plain_in};

use crate::chars::{Class, class_of, name_len};
use crate::inside::{bracket, next_is_digit};
use crate::keywords::keyword_of;
use crate::operators::{may_go_on, sign_kind};
use crate::state::{Mode, State};
use crate::token::{Kind, Token, Value};
use py_literals::place::Pos;
use rv_names::{Memory, Name, Text};

/// How many characters a string has at most that lies in its token.
const NEAR: usize = 22;

fn is_quote(c: char) -> bool
    ensures { result ≡ is_quote c }
{
    matches!(c, '"' | '\'')
}

/// Whether one of the next two characters is a quote, or isn't there: where not, a letter before them begins no string.
fn has_quote_near(rest: &[char]) -> bool
    ensures { result ≡ has_quote_near rest.now }
{
    match rest {
        [second, third, ..] => is_quote(*second) || is_quote(*third),
        _ => true,
    }
}

/// Pushes the name of the first so many characters, if it lies in the token itself, as a short one of ASCII does: whether it
/// was pushed.
fn push_name(at: Pos, chars: &[char], len: usize, tokens: &mut Vec<Token>) -> Result<bool, Memory>
    requires within { len ≤ length chars.now }
    requires spelled { IsTrue (is_spelled_as_identifier (take len chars.now)) }
    ensures none { IfOk result (λ pushed. pushed ≡ false → tokens.new.items ≡ tokens.old.items) }
    ensures some { IfOk result (λ pushed. IsTrue pushed → (s : State) → IsPushed at (front_of_lexeme (word_by len (take len chars.now) None) s) len s tokens.old.items tokens.new.items) }
{
    let Some(name) = Name::front(chars, len) else {
        return Ok(false);
    };
    tokens.push(Token {
        kind: Kind::Name,
        value: Value::Name(name),
        at,
    })?;
    Ok(true)
}

#[inline(always)]
fn push_plain(kind: Kind, at: Pos, tokens: &mut Vec<Token>) -> Result<(), Memory>
    ensures { OnOk result (tokens.new.items ≡ tokens.old.items ++ (token kind Nothing at ∷ [])) }
{
    tokens.push(Token {
        kind,
        value: Value::Nothing,
        at,
    })?;
    Ok(())
}

/// Pushes the keyword, or the short name of ASCII, that begins with a letter here: how many characters it has. Where another
/// name begins, it gives 0.
fn push_word(
    at: Pos,
    first: char,
    rest: &[char],
    chars: &[char],
    tokens: &mut Vec<Token>,
) -> Result<usize, Memory>
    requires parts { chars.now ≡ first ∷ rest.now }
    requires letter { IsTrue (is_identifier_start first) }
    ensures none { IfOk result (λ len. len ≡ 0 → tokens.new.items ≡ tokens.old.items) }
    ensures some { IfOk result (λ len. 0 < len → (s : State) → IsPushed at (front_of_lexeme (word chars.now) s) len s tokens.old.items tokens.new.items) }
    ensures word { IfOk result (λ len. 0 < len → len ≡ word_len chars.now) }
    ensures within { IfOk result (λ len. len ≤ length chars.now) }
{
    let len = 1 + name_len(rest);
    let (text, _) = chars.split_at(len);
    match keyword_of(text) {
        Some(keyword) => {
            push_plain(keyword, at, tokens)?;
            Ok(len)
        }
        None => {
            if push_name(at, chars, len, tokens)? {
                Ok(len)
            } else {
                Ok(0)
            }
        }
    }
}

/// Pushes the operator of one character that begins here, if the character behind it tells that it ends there: how many
/// characters it has, or 0.
#[inline(always)]
fn push_sign(
    at: Pos,
    state: &mut State,
    first: char,
    rest: &[char],
    tokens: &mut Vec<Token>,
) -> Result<usize, Memory>
    ensures none { IfOk result (λ len. len ≡ 0 → (tokens.new.items ≡ tokens.old.items) × (state.new ≡ state.old)) }
    ensures some { IfOk result (λ len. 0 < len → IsPushed at (operator at state.old first rest.now) len state.new tokens.old.items tokens.new.items) }
    ensures one { IfOk result (λ len. len ≤ 1) }
{
    let [second, ..] = rest else {
        return Ok(0);
    };
    if may_go_on(*second) {
        return Ok(0);
    }
    let kind = sign_kind(first);
    if kind == Kind::Newline {
        return Ok(0);
    }
    bracket(at, state, first)?;
    push_plain(kind, at, tokens)?;
    Ok(1)
}

/// How many characters stand before the end of a string that began with this quote, where that is near, and no escape and no
/// line end stands before it.
fn near_end(quote: char, rest: &[char]) -> Option<usize>
    ensures within { IfSome result (λ len. len < length rest.now) }
    ensures plain { IfSome result (λ len. len ≡ prefix_len (is_plain_in quote) rest.now) }
    ensures closed { IfSome result (λ len. take 1 (drop len rest.now) ≡ quote ∷ []) }
{
    let mut len = 0;
    for c in rest {
        if *c == quote {
            return Some(len);
        }
        if *c == '\\' || *c == '\n' || len == NEAR {
            return None;
        }
        len += 1;
    }
    None
}

/// Pushes the string that begins with this quote, if it lies in the token itself, as a short one of ASCII does, and has no
/// escape: how many characters it has, or 0.
fn push_string(
    at: Pos,
    quote: char,
    rest: &[char],
    tokens: &mut Vec<Token>,
) -> Result<usize, Memory>
    requires { IsTrue (is_quote quote) }
    ensures none { IfOk result (λ len. len ≡ 0 → tokens.new.items ≡ tokens.old.items) }
    ensures some { IfOk result (λ len. 0 < len → (s : State) → IsPushed at (string s (quote ∷ rest.now)) len s tokens.old.items tokens.new.items) }
    ensures in_line { IfOk result (λ len. list_any is_line_end (take len (quote ∷ rest.now)) ≡ false) }
    ensures within { IfOk result (λ len. len ≤ 1 + length rest.now) }
{
    let Some(len) = near_end(quote, rest) else {
        return Ok(0);
    };
    // two quotes alone may open a string of three
    if len == 0 {
        return Ok(0);
    }
    let Some(text) = Text::front(rest, len) else {
        return Ok(0);
    };
    tokens.push(Token {
        kind: Kind::Text,
        value: Value::Text(text),
        at,
    })?;
    Ok(len + 2)
}

/// Pushes the token at the front, if that is a keyword, a short name or string of ASCII, or an operator of one character,
/// inside a logical line: how many characters it has. Where anything else stands there, it pushes nothing and gives 0.
pub fn push_quick(
    at: Pos,
    state: &mut State,
    chars: &[char],
    tokens: &mut Vec<Token>,
) -> Result<usize, Memory>
    ensures none { IfOk result (λ len. len ≡ 0 → (tokens.new.items ≡ tokens.old.items) × (state.new ≡ state.old)) }
    ensures some { IfOk result (λ len. 0 < len → IsPushed at (piece at state.old chars.now) len state.new tokens.old.items tokens.new.items) }
    ensures in_line { IfOk result (λ len. list_any is_line_end (take len chars.now) ≡ false) }
    ensures within { IfOk result (λ len. len ≤ length chars.now) }
{
    let Mode::Inside = state.mode else {
        return Ok(0);
    };
    let [first, rest @ ..] = chars else {
        return Ok(0);
    };
    match class_of(*first) {
        Class::Letter => {
            if has_quote_near(rest) {
                Ok(0)
            } else {
                push_word(at, *first, rest, chars, tokens)
            }
        }
        Class::Sign => push_sign(at, state, *first, rest, tokens),
        Class::Quote => push_string(at, *first, rest, tokens),
        Class::Dot => {
            if next_is_digit(rest) {
                Ok(0)
            } else {
                push_sign(at, state, *first, rest, tokens)
            }
        }
        _ => Ok(0),
    }
}

/// Passes the line end, if one stands at the front inside a logical line: whether it did. Where no bracket is open, it pushes
/// the end of that line.
pub fn pass_line_end(
    at: Pos,
    state: &mut State,
    chars: &[char],
    tokens: &mut Vec<Token>,
) -> Result<bool, Memory>
    ensures none { IfOk result (λ ended. ended ≡ false → (tokens.new.items ≡ tokens.old.items) × (state.new ≡ state.old)) }
    ensures some { IfOk result (λ ended. IsTrue ended → IsLineEnded at (piece at state.old chars.now) state.new tokens.old.items tokens.new.items) }
    ensures line_end { IfOk result (λ ended. IsTrue ended → take 1 chars.now ≡ 10 ∷ []) }
{
    let Mode::Inside = state.mode else {
        return Ok(false);
    };
    let ['\n', ..] = chars else {
        return Ok(false);
    };
    match state.brackets.innermost() {
        Some(_) => Ok(true),
        None => {
            state.mode = Mode::LineStart;
            push_plain(Kind::Newline, at, tokens)?;
            Ok(true)
        }
    }
}
