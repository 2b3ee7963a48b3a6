//! What stands between two tokens, or before the first one of a line, where it is passed at once.

ghost use Rattle.std.specs.Prelude.{◌≡◌, ◌∷◌, ◌+◌, ◌≤◌, length, take, false, IfSome, MatchOption};
ghost use Rattle.std.specs.List.{prefix_len, list_any};
ghost use Rattle.py_literals.specs.declared.place.Pos.{Pos};
ghost use Rattle.py_lexer.specs.declared.state.Mode.TheVariants.{LineStart};
ghost use Rattle.py_lexer.specs.declared.state.State.{State};
ghost use Rattle.py_lexer.specs.Chars.{is_line_end};
ghost use Rattle.py_lexer.specs.Front.{Passed};
ghost use Rattle.py_lexer.specs.Inside.{inside};
ghost use Rattle.py_lexer.specs.Gap.{is_space, gap_next, white_fits, IsBehindGap};

use crate::chars::{is_white, line_len, white_len};
use crate::state::{Mode, State, White};

/// How many characters of white space, or of a comment, stand at the front inside a logical line, where one of these does.
fn passed_len(first: char, rest: &[char]) -> Option<usize>
    ensures passed { IfSome result (λ n. (at : Pos) (s : State) → Passed n s ≡ inside at s first rest.now) }
    ensures in_line { IfSome result (λ n. list_any is_line_end (take n (first ∷ rest.now)) ≡ false) }
    ensures within { IfSome result (λ n. n ≤ 1 + length rest.now) }
{
    if is_white(first) {
        Some(1 + white_len(rest))
    } else if first == '#' {
        Some(1 + line_len(rest))
    } else {
        None
    }
}

/// What follows the white space or the comment at the front, inside a logical line.
fn behind_white<'a>(state: &State, chars: &'a [char]) -> Option<&'a [char]>
    ensures rest { IfSome result (λ rest. IsBehindGap state.now chars.now state.now rest.now) }
    ensures shorter { IfSome result (λ rest. length rest.now ≤ length chars.now) }
{
    let Mode::Inside = state.mode else {
        return None;
    };
    let [first, rest @ ..] = chars else {
        return None;
    };
    let len = passed_len(*first, rest)?;
    let (_, behind) = chars.split_at(len);
    Some(behind)
}

/// How many spaces stand at the front.
fn spaces_len(chars: &[char]) -> usize
    ensures value { result ≡ prefix_len is_space chars.now }
    ensures within { result ≤ length chars.now }
{
    chars.iter().take_while(|c| **c == ' ').count()
}

/// Whether white space, a line end, a comment or a join of lines is next, or nothing.
fn is_gap_next(chars: &[char]) -> bool
    ensures { result ≡ gap_next chars.now }
{
    match chars {
        [] => true,
        [c, ..] => is_white(*c) || *c == '\n' || *c == '#' || *c == '\\',
    }
}

/// Whether so many spaces may begin a line, by the leading white space that was seen so far.
fn white_fits(white: Option<White>, len: usize) -> bool
    ensures { result ≡ white_fits white len }
{
    match white {
        Some(White::Spaces) => true,
        _ => len == 0,
    }
}

/// What follows the spaces at the beginning of a logical line, where a token stands behind them: most lines begin so. It is
/// inside that line at once, if the line is one of the innermost block.
fn behind_margin<'a>(state: &mut State, chars: &'a [char]) -> Option<&'a [char]>
    requires { state.old.mode ≡ LineStart }
    ensures rest { MatchOption result (state.new ≡ state.old) (λ rest. IsBehindGap state.old chars.now state.new rest.now) }
    ensures shorter { IfSome result (λ rest. length rest.now ≤ length chars.now) }
{
    let len = spaces_len(chars);
    let (_, line) = chars.split_at(len);
    if is_gap_next(line) || !white_fits(state.white, len) {
        return None;
    }
    if len == state.blocks.top() {
        state.mode = Mode::Inside;
    } else {
        state.mode = Mode::Indented(len);
    }
    Some(line)
}

/// What follows the white space or the comment between two tokens, or the spaces before the first token of a line, where they
/// stand at the front.
pub fn behind_gap<'a>(state: &mut State, chars: &'a [char]) -> Option<&'a [char]>
    ensures rest { MatchOption result (state.new ≡ state.old) (λ rest. IsBehindGap state.old chars.now state.new rest.now) }
    ensures shorter { IfSome result (λ rest. length rest.now ≤ length chars.now) }
{
    if let Mode::Inside = state.mode {
        return behind_white(state, chars);
    }
    if let Mode::LineStart = state.mode {
        return behind_margin(state, chars);
    }
    None
}
