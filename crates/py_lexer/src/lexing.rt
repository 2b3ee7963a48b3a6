//! The tokens of a text, piece by piece.

ghost use Rattle.std.specs.Prelude.{◌≡◌, ◌∷◌, ◌≤◌, ◌<◌, ◌+◌, ◌^◌, length, take, drop, chars, IfOk, IfErr, []};
ghost use Rattle.std.specs.List.{list_any};
ghost use Rattle.py_literals.specs.Place.{after};
ghost use Rattle.py_lexer.specs.Chars.{is_line_end};
ghost use Rattle.py_lexer.specs.Front.{front_of};
ghost use Rattle.py_lexer.specs.Pieces.{finish, piece};
ghost use Rattle.py_lexer.specs.Runs.{Tokens, first_place, start, HasTokens, IsFaultOf, IsRefusedBy};

use crate::fstring::{field_end, literal};
use crate::gap::behind_gap;
use crate::inside::inside;
use crate::margin::{indentation, margin};
use crate::piece::Piece;
use crate::quick::{pass_line_end, push_quick};
use crate::scratch::Scratch;
use crate::source::source_chars;
use crate::spellings::Spellings;
use crate::state::{Mode, State};
use crate::token::{Kind, LexError, LexKind, Token, Value};
use py_literals::place::{Pos, after};
use rv_names::Memory;
use std::alloc::{AllocError, Global};
use std::mem;

/// About how many characters a token has, with the white space and the comments before it.
const TOKEN_LEN: usize = 8;

/// From how many characters on a piece is long.
const LONG_PIECE: usize = 16;

/// What stands at the end: an open bracket, the end of the last line, or that of a block.
fn finish(state: &mut State) -> Piece
    ensures { front_of result state.new ≡ finish state.old state.old.brackets }
{
    if let Some(at) = state.brackets.innermost() {
        return Piece::Unclosed(at);
    }
    if state.mode != Mode::LineStart {
        state.mode = Mode::LineStart;
        return Piece::Found(0, Kind::Newline, Value::Nothing);
    }
    match state.blocks.close() {
        None => Piece::Over,
        Some(_) => Piece::Found(0, Kind::Dedent, Value::Nothing),
    }
}

/// What stands at the front, by what is open there.
fn piece(
    alloc: Global,
    spellings: &mut Spellings,
    at: Pos,
    state: &mut State,
    chars: &[char],
) -> Result<Piece, Memory>
    requires { length chars.now < 2 ^ 60 }
    ensures { IfOk result (λ p. front_of p state.new ≡ piece at state.old chars.now) }
{
    let [first, rest @ ..] = chars else {
        return Ok(finish(state));
    };
    match state.mode {
        Mode::LineStart => Ok(margin(state, chars)),
        Mode::Indented(column) => indentation(
            alloc, spellings, at, state, column, *first, rest, chars,
        ),
        Mode::Inside => inside(alloc, spellings, at, state, *first, rest, chars),
        Mode::Literal(kind, beyond) => literal(alloc, spellings, state, kind, beyond, chars),
        Mode::Field(kind, beyond) => {
            if *first == '}' {
                Ok(field_end(state, kind, beyond))
            } else {
                inside(alloc, spellings, at, state, *first, rest, chars)
            }
        }
    }
}

/// The first so many of the characters, or all, and the rest.
fn parted(chars: &[char], len: usize) -> (&[char], &[char])
    ensures front { result.0.now ≡ take len chars.now }
    ensures rest { result.1.now ≡ drop len chars.now }
{
    chars.split_at(len.min(chars.len()))
}

/// Whether one of the characters ends a line. Of many it looks at each, which is faster than to stop at the first.
fn has_line_end(chars: &[char]) -> bool
    ensures { result ≡ list_any is_line_end chars.now }
{
    if chars.len() < LONG_PIECE {
        return chars.iter().any(|c| *c == '\n');
    }
    let mut ends = false;
    for c in chars {
        ends |= *c == '\n';
    }
    ends
}

/// The place behind these characters, most of which stand in one line.
#[tactic(auto, using(crate::proofs::Places::after_in_line))]
fn moved(at: Pos, chars: &[char]) -> Pos
    requires lines { at.line + length chars.now < 2 ^ 32 }
    requires columns { at.col + length chars.now < 2 ^ 32 }
    ensures { result ≡ after at chars.now }
{
    if has_line_end(chars) {
        after(at, chars)
    } else {
        Pos {
            line: at.line,
            col: at.col + chars.len() as u32,
        }
    }
}

/// The place behind a line end.
fn next_line(at: Pos) -> Pos
    requires { at.line + 1 < 2 ^ 32 }
    ensures { result ≡ after at (10 ∷ []) }
{
    Pos {
        line: at.line + 1,
        col: 1,
    }
}

/// No tokens, with room for those of a text of so many characters.
fn no_tokens(room: Vec<Token>, len: usize) -> Result<Vec<Token>, AllocError>
    ensures { IfOk result (λ v. v.items ≡ []) }
{
    let mut tokens = room;
    tokens.clear();
    tokens.reserve(len / TOKEN_LEN)?;
    Ok(tokens)
}

fn tokens_of(
    alloc: Global,
    room: Vec<Token>,
    spellings: &mut Spellings,
    state: &mut State,
    text: &[char],
) -> Result<Vec<Token>, LexError>
    requires short { length text.now < 2 ^ 31 }
    requires begun { state.old ≡ start }
    ensures tokens { IfOk result (λ v. Tokens first_place start text.now v.items) }
    ensures fault { IfErr result (IsFaultOf text.now) }
{
    let mut tokens = no_tokens(room, text.len())?;
    let mut at = Pos { line: 1, col: 1 };
    let mut rest = text;
    'pieces: loop {
        if let Some(behind) = behind_gap(state, rest) {
            at.col += (rest.len() - behind.len()) as u32;
            rest = behind;
            continue 'pieces;
        }
        let quick = push_quick(at, state, rest, &mut tokens)?;
        if quick > 0 {
            at.col += quick as u32;
            let (_, behind) = rest.split_at(quick);
            rest = behind;
            continue 'pieces;
        }
        let ended = pass_line_end(at, state, rest, &mut tokens)?;
        if ended {
            at = next_line(at);
            rest = parted(rest, 1).1;
            continue 'pieces;
        }
        match piece(alloc, spellings, at, state, rest)? {
            Piece::Found(len, kind, value) => {
                tokens.push(Token { kind, value, at })?;
                let (front, behind) = parted(rest, len);
                at = moved(at, front);
                rest = behind;
            }
            Piece::Passed(len) => {
                let (front, behind) = parted(rest, len);
                at = moved(at, front);
                rest = behind;
            }
            Piece::Bad(kind, ahead) => {
                let (front, _) = parted(rest, ahead);
                let at = after(at, front);
                return Err(LexError::Fault { kind, at });
            }
            Piece::Unclosed(at) => {
                return Err(LexError::Fault {
                    kind: LexKind::OpenBracket,
                    at,
                });
            }
            Piece::Over => return Ok(tokens),
        }
    }
}

/// The tokens of a Python text, or its one fault (Language Reference, chapter 2).
///
/// Tokens are read from the left. A logical line that has tokens ends with a NEWLINE, blocks are told by INDENT and
/// DEDENT, and there is no end marker. Of the faults of one token and of the indentation before it that with the least
/// place is told; the `LexKind`s stand in the order that decides at one place.
///
/// `Memory` comes only where there is no memory left. Linear in the length of the text.
pub fn lex(alloc: Global, text: &str) -> Result<Vec<Token>, LexError>
    requires { length text.now < 2 ^ 31 }
    ensures tokens { IfOk result (λ v. HasTokens (chars text.now) v.items) }
    ensures fault { IfErr result (IsRefusedBy (chars text.now)) }
{
    let mut scratch = Scratch::new(alloc);
    lex_with(alloc, &mut scratch, text)
}

/// As `lex`, with the room that was kept of the texts before. So most of the memory for a text is taken once. A short name
/// or text of ASCII takes none.
pub fn lex_with(alloc: Global, scratch: &mut Scratch, text: &str) -> Result<Vec<Token>, LexError>
    requires { length text.now < 2 ^ 31 }
    ensures tokens { IfOk result (λ v. HasTokens (chars text.now) v.items) }
    ensures fault { IfErr result (IsRefusedBy (chars text.now)) }
{
    let room = mem::replace(&mut scratch.chars, Vec::new(alloc));
    let chars = source_chars(alloc, room, text)?;
    let room = mem::replace(&mut scratch.tokens, Vec::new(alloc));
    scratch.state.begin();
    let tokens = tokens_of(
        alloc,
        room,
        &mut scratch.spellings,
        &mut scratch.state,
        &chars,
    );
    scratch.chars = chars;
    tokens
}
