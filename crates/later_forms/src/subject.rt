//! What the token tells at which reading stops.

ghost use Rattle.std.specs.Prelude.{◌≡◌, ◌≤◌, ◌<◌, take, drop, length, IfOk, IfSome};
ghost use Rattle.later_forms.specs.Subjects.{ends_line, is_line_end, header_len, header, ends_here, gone_over, is_subject, mended, told_here};

use crate::level::Bracket;
use crate::nesting::Nesting;
use py_forms::{ToldForm, told_in_file};
use py_lexer::{Form, Kind, Token};
use rv_names::Memory;
use std::alloc::Global;

#[tactic(auto, unfolding(crate::specs::Subjects::ends_line))]
pub fn ends_line(kind: Kind) -> bool
    ensures { result ≡ ends_line kind }
{
    match kind {
        Kind::Newline | Kind::Indent | Kind::Dedent => true,
        _ => false,
    }
}

fn is_line_end(tokens: &[Token]) -> bool
    ensures { result ≡ is_line_end tokens.now }
{
    match tokens {
        [] => false,
        [first, ..] => ends_line(first.kind),
    }
}

/// How many tokens stand before the colon that ends the line, or all where none does.
#[tactic(auto, using(crate::proofs::Headers::header_none, crate::proofs::Headers::header_end, crate::proofs::Headers::header_on))]
fn header_len(tokens: &[Token]) -> usize
    ensures value { result ≡ header_len tokens.now }
    ensures within { result ≤ length tokens.now }
{
    let mut len = 0usize;
    let mut rest = tokens;
    'line: while let Some((first, behind)) = rest.split_first() {
        let is_end = first.kind == Kind::Colon && is_line_end(behind);
        if is_end {
            return len;
        }
        len += 1;
        rest = behind;
    }
    len
}

/// The tokens before the colon that ends the line.
fn header(tokens: &[Token]) -> &[Token]
    ensures { result.now ≡ header tokens.now }
{
    let (header, _) = tokens.split_at(header_len(tokens));
    header
}

/// Whether the tokens are the subject of a `match`.
#[tactic(auto, using(crate::proofs::Headers::gone_none, crate::proofs::Headers::gone_end, crate::proofs::Headers::gone_on))]
fn is_subject(alloc: Global, tokens: &[Token]) -> Result<bool, Memory>
    ensures { IfOk result (λ b. b ≡ is_subject tokens.now) }
{
    let mut nesting = Nesting::alone(alloc, 0, Bracket::Subject);
    let mut at = 0usize;
    let mut rest = tokens;
    'tokens: while let Some((token, behind)) = rest.split_first() {
        if !nesting.advance(true, at, token)? {
            return Ok(false);
        }
        at += 1;
        rest = behind;
    }
    Ok(nesting.ends_subject())
}

/// What a line tells of which `told` was said.
fn mended(
    alloc: Global,
    tokens: &[Token],
    count: usize,
    told: ToldForm,
) -> Result<Option<ToldForm>, Memory>
    requires within { told.place ≤ count }
    requires inside { count < length tokens.now }
    ensures value { IfOk result (λ f. f ≡ mended tokens.now count told) }
    ensures within { IfOk result (λ f. IfSome f (λ f. f.place ≤ count)) }
{
    let (_, behind) = tokens.split_at(told.place + 1);
    if told.form != Form::Match || is_subject(alloc, header(behind))? {
        return Ok(Some(told));
    }
    let (run, rest) = tokens.split_at(count);
    Ok(told_in_file(run, header(rest)))
}

/// What the token with the index `count` tells behind the run before it. Linear in the tokens.
#[tactic(auto, unfolding(crate::specs::Subjects::told_here))]
pub fn told_here(alloc: Global, tokens: &[Token], count: usize) -> Result<Option<ToldForm>, Memory>
    requires { count ≤ length tokens.now }
    ensures value { IfOk result (λ f. f ≡ told_here tokens.now count) }
    ensures within { IfOk result (λ f. IfSome f (λ f. f.place ≤ count)) }
    ensures inside { IfOk result (λ f. IfSome f (λ f. count < length tokens.now)) }
{
    let (run, rest) = tokens.split_at(count);
    match told_in_file(run, rest) {
        None => Ok(None),
        Some(told) => mended(alloc, tokens, count, told),
    }
}
