//! The expression at a place of a text's tokens, or its fault.

ghost use Rattle.std.specs.Prelude.{◌≡◌, ◌<◌, ◌≤◌, ◌++◌, ◌+◌, ◌-◌, ◌^◌, ℕ, Err, length, take, drop, MatchOption};
ghost use Rattle.phrases.specs.Verdict.{Longest, StopsAt, TooDeepAt};
ghost use Rattle.py_ast.specs.Grammar.{expr};
ghost use Rattle.py_expr.specs.Judged.{deepest, Meant, StandsAt, IsStop, IsPlain, IsTold, Judged};

use crate::error::SyntaxError;
use crate::expr::expr_of;
use crate::steps::unless;
use crate::token::Taken;
use phrases::{Fault, Stop};
use py_ast::Expr;
use py_forms::told;
use py_lexer::{Form, Token};
use py_literals::place::Pos;
use std::alloc::Global;

/// So many nestings may be open, one in another: of expressions, and likewise of blocks.
pub const DEEPEST: u8 = 100;

/// The place of the token at an index.
fn place_at(tokens: &[Token], index: usize) -> Pos
    requires { index < length tokens.now }
    ensures { StandsAt tokens.now index result }
{
    tokens[index].at
}

/// The place of the first token of `rest`, or of the last of all where none is left.
fn stop_place(tokens: &[Token], rest: &[Token]) -> Pos
    requires { 0 < length tokens.now }
    ensures { IsStop tokens.now rest.now result }
{
    match rest {
        [first, ..] => first.at,
        [] => place_at(tokens, tokens.len() - 1),
    }
}

/// The tokens before those that are left.
fn run_before<'a>(tokens: &'a [Token], rest: &[Token]) -> &'a [Token]
    requires { length rest.now ≤ length tokens.now }
    ensures value { result.now ≡ take (length tokens.now - length rest.now) tokens.now }
    ensures count { length result.now ≡ length tokens.now - length rest.now }
{
    &tokens[..tokens.len() - rest.len()]
}

/// The form that is told behind a run, and where it stands.
fn told_behind(tokens: &[Token], run: &[Token], rest: &[Token]) -> Option<(Form, Pos)>
    requires { tokens.now ≡ run.now ++ rest.now }
    ensures { MatchOption result (IsPlain run.now rest.now) (λ p. IsTold run.now rest.now p.0 p.1) }
{
    match told(run, rest) {
        None => None,
        Some(found) => Some((found.form, place_at(tokens, found.place))),
    }
}

/// The longest run at the front with which an expression begins, by what the reader of expressions answers.
fn front(alloc: Global, tokens: &[Token]) -> Taken<'_, Expr>
    ensures { Meant tokens.now result }
{
    expr_of(alloc, tokens, DEEPEST)
}

/// The expression that was read up to `rest`, and the index of what follows, where the first token has the index `at`.
fn judged_whole(
    tokens: &[Token],
    value: Expr,
    rest: &[Token],
    at: usize,
) -> Result<(Expr, usize), SyntaxError>
    requires fits { at + length tokens.now < 2 ^ 63 }
    requires longest { Longest expr deepest tokens.now value rest.now }
    ensures { Judged at tokens.now result }
{
    let run = run_before(tokens, rest);
    match unless(value, told_behind(tokens, run, rest)) {
        Err((form, place)) => Err(SyntaxError::Unsupported(form, place)),
        Ok(value) => Ok((value, at + run.len())),
    }
}

/// What is wrong where no expression ends before `rest`.
fn judged_unfinished(tokens: &[Token], rest: &[Token]) -> SyntaxError
    requires some { 0 < length tokens.now }
    requires stops { StopsAt expr deepest tokens.now rest.now }
    ensures { (at : ℕ) → Judged at tokens.now (Err result) }
{
    let run = run_before(tokens, rest);
    match told_behind(tokens, run, rest) {
        Some((form, place)) => SyntaxError::Unsupported(form, place),
        None => SyntaxError::Syntax(stop_place(tokens, rest)),
    }
}

/// What is wrong where the first token of `rest` opens a nesting too many.
fn judged_deep(tokens: &[Token], rest: &[Token]) -> SyntaxError
    requires deep { TooDeepAt expr deepest tokens.now rest.now }
    ensures { (at : ℕ) → Judged at tokens.now (Err result) }
{
    SyntaxError::TooDeep(place_at(rest, 0))
}

/// The expression that begins with the token at the index `at`, and the index of the token behind it.
///
/// It is read as far as the longest run of tokens from `at` on with which an expression begins (Language Reference, chapter 6).
/// Linear in the tokens of that run. Fails, where the run is `r`:
///
/// * `Unsupported` if the token behind `r` tells a form of Python that is left out, at that form's first token;
/// * else `Syntax` if `r` is no expression, at the token behind it, or at the last token where none is behind it;
/// * `TooDeep` if reading meets a token that opens nesting 101 first, at that token: no form is looked for behind it;
/// * `Memory` if there is none left.
pub fn expression(alloc: Global, tokens: &[Token], at: usize) -> Result<(Expr, usize), SyntaxError>
    requires within { at < length tokens.now }
    ensures judged { Judged at (drop at tokens.now) result }
{
    let (_, rest) = tokens.split_at(at);
    match front(alloc, rest) {
        Ok((value, after)) => judged_whole(rest, value, after, at),
        Err(Stop::Memory) => Err(SyntaxError::Memory),
        Err(Stop::Fault(Fault::Syntax, after)) => Err(judged_unfinished(rest, after)),
        Err(Stop::Fault(Fault::TooDeep, after)) => Err(judged_deep(rest, after)),
    }
}
