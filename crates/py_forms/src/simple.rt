//! What is told in a statement that begins with an expression.

ghost use Rattle.std.specs.Prelude.{◌≡◌, ◌≤◌, ◌&&◌, ◌==◌, ℕ, List, Option, Some, None, length, IfSome};
ghost use Rattle.py_forms.specs.Parts.{behind_first, is_augmented};
ghost use Rattle.py_forms.specs.declared.part.Parting.TheVariants as partings;
ghost use Rattle.py_forms.specs.Statements.{is_yield, is_star, before_yield, before_star, is_name_or_comma, are_names, ends_place, is_primary, is_place, is_target, chained, goes_on_name, goes_on_constant, are_texts, goes_on_texts, goes_on_by, goes_on_member, member, expression_part};

use crate::beginning::last_kind;
use crate::block::{Block, first_kind};
use crate::classes::goes_on_operand;
use crate::header::{inside, separator_of, told_if};
use crate::part::{Parting, behind_first, is_augmented};
use crate::primary::before_primary;
use crate::telling::ToldForm;
use py_lexer::{Form, Kind, Token};

/// Whether a `yield` may stand behind the token.
fn before_yield(kind: Option<Kind>) -> bool
    ensures { result ≡ before_yield kind }
{
    match kind {
        Some(Kind::Equal) => true,
        Some(kind) => is_augmented(kind),
        None => false,
    }
}

/// Whether an item with a star may stand behind the token.
fn before_star(kind: Option<Kind>) -> bool
    ensures { result ≡ before_star kind }
{
    match kind {
        Some(Kind::Comma) => true,
        _ => before_yield(kind),
    }
}

fn is_name_or_comma(kind: Kind) -> bool
    ensures { result ≡ is_name_or_comma kind }
{
    match kind {
        Kind::Name | Kind::Comma => true,
        _ => false,
    }
}

/// Whether there are only names and commas.
#[tactic(auto, unfolding(crate::specs::Statements::are_names))]
fn are_names(tokens: &[Token]) -> bool
    ensures { result ≡ are_names tokens.now }
{
    let mut rest = tokens;
    'onward: while let Some((first, after)) = rest.split_first() {
        if !is_name_or_comma(first.kind) {
            return false;
        }
        rest = after;
    }
    true
}

/// Whether a name, an attribute or a subscript may end with the token.
fn ends_place(kind: Option<Kind>) -> bool
    ensures { result ≡ ends_place kind }
{
    match kind {
        Some(Kind::Name) | Some(Kind::RightBracket) => true,
        _ => false,
    }
}

#[tactic(auto, using(crate::proofs::Backward::length_back_of))]
fn is_primary(tokens: &[Token]) -> bool
    ensures { result ≡ is_primary tokens.now }
{
    before_primary(tokens).len() == 0
}

/// Whether the tokens are names, or a name, an attribute or a subscript.
fn is_place(tokens: &[Token]) -> bool
    ensures { result ≡ is_place tokens.now }
{
    tokens.len() != 0
        && (are_names(tokens)
            || (is_primary(tokens)
                && ends_place(last_kind(tokens))
                && first_kind(tokens) != Some(Kind::LeftBracket)))
}

/// Whether a statement has one `=` before a target, and nothing else that parts its sides.
fn is_target(statement: &[Token]) -> bool
    ensures { result ≡ is_target (behind_first partings.Targets 0 statement.now) (behind_first partings.Others 0 statement.now) }
{
    match behind_first(Parting::Targets, statement) {
        None => false,
        Some(value) => match behind_first(Parting::Others, statement) {
            None => is_place(value),
            Some(_) => false,
        },
    }
}

/// The second `=` of an assignment.
fn chained(at: usize, statement: &[Token], kind: Kind) -> Option<ToldForm>
    ensures value { result ≡ chained at statement.now kind }
    ensures within { IfSome result (λ f. f.place ≤ at) }
{
    told_if(
        kind == Kind::Equal && is_target(statement),
        Form::ChainedAssignment,
        at,
    )
}

/// Whether the token goes on with a statement that is a name so far.
fn goes_on_name(kind: Kind) -> bool
    ensures { result ≡ goes_on_name kind }
{
    match kind {
        Kind::Comma | Kind::Newline | Kind::Semicolon => true,
        _ => goes_on_operand(kind) || is_augmented(kind),
    }
}

/// Whether the token goes on with a statement that is `...` or a string so far.
fn goes_on_constant(kind: Kind) -> bool
    ensures { result ≡ goes_on_constant kind }
{
    match kind {
        Kind::Comma => true,
        _ => goes_on_operand(kind),
    }
}

fn goes_on_texts(kind: Kind) -> bool
    ensures { result ≡ goes_on_texts kind }
{
    match kind {
        Kind::FStringStart => true,
        _ => goes_on_constant(kind),
    }
}

/// Whether there are only strings.
#[tactic(auto, unfolding(crate::specs::Statements::are_texts))]
fn are_texts(tokens: &[Token]) -> bool
    ensures { result ≡ are_texts tokens.now }
{
    let mut rest = tokens;
    'onward: while let Some((first, after)) = rest.split_first() {
        if first.kind != Kind::Text {
            return false;
        }
        rest = after;
    }
    true
}

/// Whether the token goes on with a statement that is one token of this kind so far.
fn goes_on_by(only: Kind, kind: Kind) -> bool
    ensures { result ≡ goes_on_by only kind }
{
    match only {
        Kind::Name => goes_on_name(kind),
        Kind::Ellipsis => goes_on_constant(kind),
        Kind::Text => goes_on_texts(kind),
        _ => false,
    }
}

/// Whether the token goes on with a statement of a class, which the subset doesn't.
fn goes_on_member(statement: &[Token], kind: Kind) -> bool
    ensures { result ≡ goes_on_member statement.now kind }
{
    match statement {
        [] => false,
        [only] => goes_on_by(only.kind, kind),
        _ => are_texts(statement) && goes_on_texts(kind),
    }
}

fn member(at: usize, block: Block, statement: &[Token], kind: Kind) -> Option<ToldForm>
    ensures value { result ≡ member at block statement.now kind }
    ensures within { IfSome result (λ f. f.place ≤ at) }
{
    told_if(
        block == Block::Class && goes_on_member(statement, kind),
        Form::ClassStatement,
        at.saturating_sub(statement.len()),
    )
}

/// Whether the token is a `yield` that may begin the part.
fn is_yield_in(part: &[Token], kind: Kind, separator: Option<Kind>) -> bool
    ensures { result ≡ ((length part.now == 0) && (is_yield kind && before_yield separator)) }
{
    part.len() == 0 && (kind == Kind::Yield && before_yield(separator))
}

/// Whether the token is a star that may begin the part.
fn is_star_in(part: &[Token], kind: Kind, separator: Option<Kind>) -> bool
    ensures { result ≡ ((length part.now == 0) && (is_star kind && before_star separator)) }
{
    part.len() == 0 && (kind == Kind::Star && before_star(separator))
}

/// What is told in a statement that begins with an expression, in the part of it that the run ends in.
pub fn expression_part(
    at: usize,
    block: Block,
    statement: &[Token],
    part: &[Token],
    kind: Kind,
    rest: &[Token],
) -> Option<ToldForm>
    ensures value { result ≡ expression_part at block statement.now part.now kind rest.now }
    ensures within { IfSome result (λ f. f.place ≤ at) }
{
    if let Some(found) = inside(at, part, rest) {
        return Some(found);
    }
    let separator = separator_of(statement, part);
    if let Some(found) = told_if(is_yield_in(part, kind, separator), Form::Yield, at) {
        return Some(found);
    }
    if let Some(found) = told_if(is_star_in(part, kind, separator), Form::Star, at) {
        return Some(found);
    }
    if let Some(found) = chained(at, statement, kind) {
        return Some(found);
    }
    member(at, block, statement, kind)
}
