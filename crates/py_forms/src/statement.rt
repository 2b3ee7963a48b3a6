//! What a token tells behind a run with which a file begins.

ghost use Rattle.std.specs.Prelude.{◌≡◌, ◌<◌, ◌≤◌, ℕ, false, List, Option, Some, None, length, IfSome};
ghost use Rattle.py_forms.specs.Statements.{is_match_name, ends_in_colon, begins_subject, subject, match_line, by_first, in_statement, told_in_file};

use crate::beginning::beginning;
use crate::block::{Block, block_round, first_kind};
use crate::classes::begins_expression;
use crate::header::{
    class_header, condition, decorator, from_import, function_header, inside, items, loop_header,
    tail_of,
};
use crate::part::{Parting, last_part, line, statement};
use crate::simple::expression_part;
use crate::telling::ToldForm;
use py_lexer::{Form, Kind, Token, Value};

fn is_match_name(value: &Value) -> bool
    ensures { result ≡ is_match_name value.now }
{
    match value {
        Value::Name(name) => name.as_str() == "match",
        _ => false,
    }
}

/// Whether the line goes on up to a `:` before its end.
#[tactic(auto, unfolding(crate::specs::Statements::ends_in_colon))]
fn ends_in_colon(tokens: &[Token]) -> bool
    ensures { result ≡ ends_in_colon (false) tokens.now }
{
    let mut colon = false;
    let mut rest = tokens;
    'onward: while let Some((first, after)) = rest.split_first() {
        match first.kind {
            Kind::Newline => return colon,
            Kind::Colon => colon = true,
            _ => colon = false,
        }
        rest = after;
    }
    false
}

/// Whether the token begins the subject of a `match`.
fn begins_subject(kind: Option<Kind>) -> bool
    ensures { result ≡ begins_subject kind }
{
    match kind {
        None => false,
        Some(Kind::Star) => true,
        Some(kind) => begins_expression(kind),
    }
}

/// The kind of the first token behind the first word of a line.
fn subject(run: &[Token], rest: &[Token]) -> Option<Kind>
    ensures { result ≡ subject run.now rest.now }
{
    match run {
        [first, ..] => Some(first.kind),
        [] => first_kind(rest),
    }
}

/// Whether a line is that of a `match` statement.
fn match_line(line: &[Token], rest: &[Token]) -> bool
    ensures { result ≡ match_line line.now rest.now }
{
    match line {
        [] => false,
        [first, behind @ ..] => {
            is_match_name(&first.value)
                && begins_subject(subject(behind, rest))
                && ends_in_colon(rest)
        }
    }
}

/// What is told in a statement, by its first token.
fn by_first(
    at: usize,
    block: Block,
    statement: &[Token],
    first: Kind,
    kind: Kind,
    rest: &[Token],
) -> Option<ToldForm>
    ensures value { result ≡ by_first at block statement.now first kind rest.now }
    ensures within { IfSome result (λ f. f.place ≤ at) }
{
    match first {
        Kind::If | Kind::Elif | Kind::While => condition(at, tail_of(statement), kind, rest),
        Kind::Else | Kind::Pass | Kind::Break | Kind::Continue | Kind::Import => None,
        Kind::From => from_import(at, statement, kind),
        Kind::For => loop_header(at, statement, kind, rest),
        Kind::Def => function_header(at, statement, kind, rest),
        Kind::Class => class_header(at, statement, kind, rest),
        Kind::At => decorator(at, tail_of(statement), kind, rest),
        Kind::Return => items(at, tail_of(statement), kind, rest),
        Kind::Assert => inside(
            at,
            last_part(Parting::Expressions, tail_of(statement)),
            rest,
        ),
        _ => expression_part(
            at,
            block,
            statement,
            last_part(Parting::Sides, statement),
            kind,
            rest,
        ),
    }
}

fn in_statement(run: &[Token], statement: &[Token], kind: Kind, rest: &[Token]) -> Option<ToldForm>
    ensures value { result ≡ in_statement run.now statement.now kind rest.now }
    ensures within { IfSome result (λ f. f.place ≤ length run.now) }
{
    match statement {
        [] => beginning(run, kind, rest),
        [first, ..] => {
            if statement.len() == line(run).len() && match_line(statement, rest) {
                return Some(ToldForm {
                    form: Form::Match,
                    place: run.len().saturating_sub(statement.len()),
                });
            }
            by_first(
                run.len(),
                block_round(run),
                statement,
                first.kind,
                kind,
                rest,
            )
        }
    }
}

/// The form that is left out which the first tokens of `rest` tell behind `run`, or `None` where they tell none.
///
/// `run` is the longest run of tokens with which a file of the subset begins, and `rest` what follows it. The place is an
/// index in `run` and `rest` together. Told are: the words of statements that are left out; definitions, classes and imports
/// inside of blocks; a second base or a keyword of a class; other statements of a class; decorators that are left out; a
/// chained assignment; imports of all names and relative ones; the `else` of a loop; a `match`, by the `:` that ends its
/// line; and in expressions what `told` says, and a `yield`, a star or a `:=` outside of brackets. Linear in the tokens.
#[tactic(auto, unfolding(crate::specs::Statements::told_in_file))]
pub fn told_in_file(run: &[Token], rest: &[Token]) -> Option<ToldForm>
    ensures value { result ≡ told_in_file run.now rest.now }
    ensures within { IfSome result (λ f. f.place ≤ length run.now) }
    ensures behind { IfSome result (λ f. 0 < length rest.now) }
{
    match rest {
        [] => None,
        [first, ..] => in_statement(run, statement(run), first.kind, rest),
    }
}
