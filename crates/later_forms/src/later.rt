//! The form that a token from the stop on tells on its logical line.

ghost use Rattle.std.specs.Prelude.{◌≡◌, ◌≤◌, ◌<◌, ◌+◌, ◌^◌, [], ◌∷◌, Some, None, length, take, drop, IfOk, IfSome, MatchOption};
ghost use Rattle.py_forms.specs.Parts.{kinds_back};
ghost use Rattle.py_forms.specs.Forms.{told_if};
ghost use Rattle.later_forms.specs.Nesting.{outside};
ghost use Rattle.later_forms.specs.Later.{called, call_in, told_by, told_from, line_begin, told_along, least, later, told_before, told_on_line};

use crate::level::{Bracket, Callee, Level, Primary};
use crate::nearest::Nearest;
use crate::nesting::Nesting;
use crate::subject::{ends_line, told_here};
use py_forms::ToldForm;
use py_lexer::{Form, Kind, Token};
use rv_names::Memory;
use std::alloc::Global;

fn told_if(is_told: bool, form: Form, place: usize) -> Option<ToldForm>
    ensures { result ≡ told_if is_told form place }
{
    if is_told {
        Some(ToldForm { form, place })
    } else {
        None
    }
}

/// What a call of a primary tells.
fn called(primary: Primary) -> Option<ToldForm>
    ensures { result ≡ called primary primary.callee }
{
    match primary.callee {
        Callee::Named => None,
        Callee::Init => told_if(true, Form::InitCall, primary.begin),
        Callee::Unnamed => told_if(true, Form::Callee, primary.begin),
    }
}

fn call_in(level: Level) -> Option<ToldForm>
    ensures { result ≡ call_in level.bracket level }
{
    match level.bracket {
        Bracket::Heading => None,
        _ => {
            if level.spot.is_behind() {
                called(level.primary)
            } else {
                None
            }
        }
    }
}

#[tactic(auto, unfolding(crate::specs::Later::told_by))]
fn told_by(level: Level, kind: Kind) -> Option<ToldForm>
    ensures { result ≡ told_by level kind }
{
    match kind {
        Kind::For => told_if(level.begins_clause(), Form::Comprehension, level.opening),
        Kind::Comma | Kind::RightBrace => told_if(level.is_set(), Form::Set, level.opening),
        Kind::LeftParen => call_in(level),
        _ => None,
    }
}

/// What a token tells that stands before the stop, or from there on.
fn told_from(is_stopped: bool, level: Level, kind: Kind) -> Option<ToldForm>
    ensures { result ≡ told_from is_stopped level kind }
{
    if is_stopped {
        told_by(level, kind)
    } else {
        None
    }
}

/// The kind of the last token of a run, and what stands before it.
#[tactic(auto, using(crate::proofs::Lines::kinds_back_none, crate::proofs::Lines::kinds_back_split))]
fn last_kind(run: &[Token]) -> Option<(Kind, &[Token])>
    ensures kinds { MatchOption result (kinds_back run.now ≡ []) (λ p. kinds_back run.now ≡ p.0 ∷ kinds_back p.1.now) }
    ensures shorter { IfSome result (λ p. length p.1.now + 1 ≡ length run.now) }
{
    match run.split_last() {
        None => None,
        Some((last, before)) => Some((last.kind, before)),
    }
}

/// The index at which the line begins that a run ends in. Linear in the line.
#[tactic(auto, using(crate::proofs::Lines::line_begin_none, crate::proofs::Lines::line_begin_here, crate::proofs::Lines::line_begin_before, crate::proofs::Lines::length_kinds_back))]
fn line_begin(run: &[Token]) -> usize
    ensures value { result ≡ line_begin (kinds_back run.now) }
    ensures within { result ≤ length run.now }
{
    let mut rest = run;
    'back: while let Some((kind, before)) = last_kind(rest) {
        if ends_line(kind) {
            return rest.len();
        }
        rest = before;
    }
    0
}

/// What the tokens of a line tell, the first of which has the index `begin`, and the stop the index `count`.
#[tactic(auto, using(crate::proofs::Along::along_end, crate::proofs::Along::along_line, crate::proofs::Along::along_on, crate::proofs::Along::along_nowhere, crate::proofs::Along::nearest_end, crate::proofs::Along::nearest_first))]
fn told_along(
    alloc: Global,
    tokens: &[Token],
    begin: usize,
    count: usize,
    limit: usize,
) -> Result<Option<ToldForm>, Memory>
    requires { begin + length tokens.now < 2 ^ 63 }
    ensures { IfOk result (λ f. f ≡ least limit (told_along count begin (Some (outside begin)) tokens.now)) }
{
    let mut nesting = Nesting::alone(alloc, begin, Bracket::Outside);
    let mut nearest = Nearest { limit, form: None };
    let mut at = begin;
    let mut rest = tokens;
    'line: while let Some((token, behind)) = rest.split_first() {
        if ends_line(token.kind) {
            return Ok(nearest.form);
        }
        let is_stopped = count <= at;
        nearest = nearest.with(told_from(is_stopped, nesting.innermost, token.kind));
        if !nesting.advance(is_stopped, at, token)? {
            return Ok(nearest.form);
        }
        at += 1;
        rest = behind;
    }
    Ok(nearest.form)
}

/// What the line of the stop tells from there on, and begins before the limit.
fn later(
    alloc: Global,
    tokens: &[Token],
    count: usize,
    limit: usize,
) -> Result<Option<ToldForm>, Memory>
    requires { count ≤ length tokens.now }
    ensures value { IfOk result (λ f. f ≡ later tokens.now count limit) }
    ensures below { IfOk result (λ f. IfSome f (λ f. f.place < limit)) }
{
    let (run, _) = tokens.split_at(count);
    let begin = line_begin(run);
    let (_, line) = tokens.split_at(begin);
    told_along(alloc, line, begin, count, limit)
}

/// The form that begins before the token at which reading stops because of nesting: a comprehension, a set, or a call whose callee
/// is left out, which a token from there on tells on the same logical line (Language Reference, 6.2.4 to 6.2.8 and 6.3.4).
///
/// `tokens` are those of a file, and `count` is the index of the token at which reading stops; the tokens before it begin a file
/// of the subset. Of several forms the one with the least place is told. `None` says that none is told as far as the full
/// grammar of the Language Reference goes on. `Memory` comes only where there is no memory left. Linear in the line.
#[tactic(auto, unfolding(crate::specs::Later::told_before))]
pub fn told_before(
    alloc: Global,
    tokens: &[Token],
    count: usize,
) -> Result<Option<ToldForm>, Memory>
    requires within { count ≤ length tokens.now }
    ensures value { IfOk result (λ f. f ≡ told_before tokens.now count) }
    ensures within { IfOk result (λ f. IfSome f (λ f. f.place ≤ count)) }
    ensures inside { IfOk result (λ f. IfSome f (λ f. f.place < length tokens.now)) }
    ensures before { IfOk result (λ f. IfSome f (λ f. f.place < count)) }
{
    later(alloc, tokens, count, count)
}

/// The form that is left out where reading stops at a token: the one that this token tells, or one that begins before that and is
/// told later on the same logical line (Language Reference, 6.2 to 6.14).
///
/// `tokens` are those of a file, and `count` is the index of the token at which reading stops; the tokens before it are the longest
/// run with which a file of the subset begins. The place is an index in `tokens`. Told later are a comprehension, by its `for`, a
/// set, by what ends its first item, and a call whose callee is left out, by its parenthesis; of several forms the one with the
/// least place is told. `None` says that the token tells none, so that the full grammar doesn't go on with it either.
/// `Memory` comes only where there is no memory left. Linear in the tokens, and behind the stop in the line.
#[tactic(auto, unfolding(crate::specs::Later::told_on_line))]
pub fn told_on_line(
    alloc: Global,
    tokens: &[Token],
    count: usize,
) -> Result<Option<ToldForm>, Memory>
    requires within { count ≤ length tokens.now }
    ensures value { IfOk result (λ f. f ≡ told_on_line tokens.now count) }
    ensures within { IfOk result (λ f. IfSome f (λ f. f.place ≤ count)) }
    ensures inside { IfOk result (λ f. IfSome f (λ f. f.place < length tokens.now)) }
{
    let Some(told) = told_here(alloc, tokens, count)? else {
        return Ok(None);
    };
    match later(alloc, tokens, count, told.place)? {
        None => Ok(Some(told)),
        Some(earlier) => Ok(Some(earlier)),
    }
}
