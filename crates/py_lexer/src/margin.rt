//! Blank lines and indentation.

ghost use Rattle.std.specs.Prelude.{◌≡◌, ◌∷◌, ◌≤◌, ◌<◌, ◌+◌, ◌^◌, length, drop, IfOk};
ghost use Rattle.std.specs.List.{prefix_len};
ghost use Rattle.py_lexer.specs.Front.{front_of, Bad};
ghost use Rattle.py_lexer.specs.Inside.{inside};
ghost use Rattle.py_lexer.specs.declared.state.State.{State};
ghost use Rattle.py_lexer.specs.Margin.{gap_len, is_form_feed, feeds_len, indent_of, white_of, is_of, column_of, indented, margin_by, margin, is_open, bad_dedent, indentation};

use crate::chars::{is_white, line_len, white_len};
use crate::inside::inside;
use crate::piece::Piece;
use crate::spellings::Spellings;
use crate::stack::Blocks;
use crate::state::{Mode, State, White};
use crate::token::{Kind, LexKind, Value};
use py_literals::place::Pos;
use rv_names::Memory;
use std::alloc::Global;

/// How much white space, and how many joins of lines, stand at the front.
fn gap_len(chars: &[char]) -> usize
    ensures value { result ≡ gap_len chars.now }
    ensures within { result ≤ length chars.now }
{
    let mut rest = chars;
    let mut len = 0;
    'gap: loop {
        match rest {
            ['\\', '\n', after @ ..] => {
                rest = after;
                len += 2;
            }
            [c, after @ ..] if is_white(*c) => {
                rest = after;
                len += 1;
            }
            _ => return len,
        }
    }
}

fn feeds_len(chars: &[char]) -> usize
    ensures value { result ≡ feeds_len chars.now }
    ensures within { result ≤ length chars.now }
{
    chars.iter().take_while(|c| **c == '\x0c').count()
}

fn white_of(white: Option<White>, indent: &[char]) -> Option<White>
    ensures { result ≡ white_of white indent.now }
{
    match white {
        Some(white) => Some(white),
        None => match indent {
            [] => None,
            ['\t', ..] => Some(White::Tabs),
            _ => Some(White::Spaces),
        },
    }
}

fn is_of(white: Option<White>, c: char) -> bool
    ensures { result ≡ is_of white c }
{
    match white {
        None => false,
        Some(White::Spaces) => c == ' ',
        Some(White::Tabs) => c == '\t',
    }
}

fn alike_len(white: Option<White>, indent: &[char]) -> usize
    ensures value { result ≡ prefix_len (is_of white) indent.now }
    ensures within { result ≤ length indent.now }
{
    indent.iter().take_while(|c| is_of(white, **c)).count()
}

fn column_of(white: Option<White>, count: usize) -> usize
    requires { count < 2 ^ 60 }
    ensures { result ≡ column_of white count }
{
    match white {
        Some(White::Tabs) => 8 * count,
        _ => count,
    }
}

/// The first token of a line stands behind so much white space and so many joins.
fn indented(state: &mut State, gap: usize, feeds: usize, indent: &[char]) -> Piece
    requires short { length indent.now < 2 ^ 60 }
    requires within { feeds + length indent.now < 2 ^ 63 }
    ensures { front_of result state.new ≡ indented state.old gap feeds indent.now (white_of state.old.white indent.now) }
{
    let white = white_of(state.white, indent);
    let alike = alike_len(white, indent);
    if alike < indent.len() {
        return Piece::Bad(LexKind::MixedIndent, feeds + alike);
    }
    state.mode = Mode::Indented(column_of(white, indent.len()));
    state.white = white;
    Piece::Passed(gap)
}

fn first_token(state: &mut State, gap: usize, chars: &[char]) -> Piece
    requires { length chars.now < 2 ^ 60 }
    ensures { front_of result state.new ≡ indented state.old gap (feeds_len chars.now) (indent_of chars.now) (white_of state.old.white (indent_of chars.now)) }
{
    let feeds = feeds_len(chars);
    let (_, line) = chars.split_at(feeds);
    let (indent, _) = line.split_at(white_len(line));
    indented(state, gap, feeds, indent)
}

/// What stands on a line behind the white space and joins at its beginning.
fn margin_line(state: &mut State, gap: usize, chars: &[char], first: char, rest: &[char]) -> Piece
    requires short { length chars.now < 2 ^ 60 }
    requires within { gap + length rest.now < 2 ^ 60 }
    ensures { front_of result state.new ≡ margin_by state.old gap chars.now (first ∷ rest.now) }
{
    if first == '\n' {
        Piece::Passed(gap + 1)
    } else if first == '#' {
        Piece::Passed(gap + (1 + line_len(rest)))
    } else {
        first_token(state, gap, chars)
    }
}

/// What stands where a logical line begins: a blank line or a comment, or the indentation of its first token
/// (Language Reference, 2.1.7 and 2.1.8).
pub fn margin(state: &mut State, chars: &[char]) -> Piece
    requires { length chars.now < 2 ^ 60 }
    ensures { front_of result state.new ≡ margin state.old chars.now }
{
    let gap = gap_len(chars);
    let (_, line) = chars.split_at(gap);
    match line {
        [] => Piece::Passed(gap),
        [first, rest @ ..] => margin_line(state, gap, chars, *first, rest),
    }
}

fn is_open(blocks: &Blocks, column: usize) -> bool
    ensures { result ≡ is_open blocks.now column }
{
    column == 0 || blocks.has(column)
}

/// What stands at the first token of a line, in this column: the beginning of a block, the end of one, or no change
/// (Language Reference, 2.1.8).
pub fn indentation(
    alloc: Global,
    spellings: &mut Spellings,
    at: Pos,
    state: &mut State,
    column: usize,
    first: char,
    rest: &[char],
    chars: &[char],
) -> Result<Piece, Memory>
    requires { chars.now ≡ first ∷ rest.now }
    ensures { IfOk result (λ p. front_of p state.new ≡ indentation at state.old column first rest.now) }
{
    let top = state.blocks.top();
    if column == top {
        state.mode = Mode::Inside;
        Ok(Piece::Passed(0))
    } else if top < column {
        state.blocks.open(column)?;
        state.mode = Mode::Inside;
        Ok(Piece::Found(0, Kind::Indent, Value::Nothing))
    } else if is_open(&state.blocks, column) {
        let _closed = state.blocks.close();
        Ok(Piece::Found(0, Kind::Dedent, Value::Nothing))
    } else {
        bad_dedent(alloc, spellings, at, state, first, rest, chars)
    }
}

fn bad_dedent(
    alloc: Global,
    spellings: &mut Spellings,
    at: Pos,
    state: &mut State,
    first: char,
    rest: &[char],
    chars: &[char],
) -> Result<Piece, Memory>
    requires { chars.now ≡ first ∷ rest.now }
    ensures { IfOk result (λ p. front_of p state.new ≡ bad_dedent (inside at state.old first rest.now)) }
{
    let piece = inside(alloc, spellings, at, state, first, rest, chars)?;
    Ok(dedent_fault(piece))
}

/// The fault of a line's column, where this piece stands at its first token: a character that begins no token is told
/// before it.
fn dedent_fault(piece: Piece) -> Piece
    ensures { (s t : State) → front_of result s ≡ bad_dedent (front_of piece t) }
{
    match piece {
        Piece::Bad(kind, ahead) => char_or_dedent(kind, ahead),
        Piece::Found(_, _, _) => Piece::Bad(LexKind::BadDedent, 0),
        Piece::Passed(_) => Piece::Bad(LexKind::BadDedent, 0),
        Piece::Unclosed(_) => Piece::Bad(LexKind::BadDedent, 0),
        Piece::Over => Piece::Bad(LexKind::BadDedent, 0),
    }
}

fn char_or_dedent(kind: LexKind, ahead: usize) -> Piece
    ensures { (s : State) → front_of result s ≡ bad_dedent (Bad kind ahead) }
{
    match kind {
        LexKind::BadChar => Piece::Bad(LexKind::BadChar, ahead),
        _ => Piece::Bad(LexKind::BadDedent, 0),
    }
}
