//! What is told in conditions, in the headers of loops, functions and classes, in imports and in decorators.

ghost use Rattle.std.specs.Prelude.{◌≡◌, ◌≤◌, ℕ, List, Option, Some, None, length, MatchOption, IfSome};
ghost use Rattle.std.specs.Str.{bytes_eq};
ghost use Rattle.py_forms.specs.Roles.{back_of, roles_of};
ghost use Rattle.py_forms.specs.Forms.{told_if};
ghost use Rattle.py_forms.specs.Parts.{behind_first};
ghost use Rattle.py_forms.specs.declared.part.Parting.TheVariants as partings;
ghost use Rattle.py_forms.specs.Statements.{inside, starred, begins_name, is_named, condition, before_name, items, loop_by, first_is_name, star_parameter, separator_of, before_parameter, before_value, signature_part, signature, function_header, is_positional, ends_name, tail_of, base_part, is_right_paren, open_bases, class_header, from_import, method_of, method, ends_argument, goes_on, decorator_form, decorator};

use crate::beginning::{form_if, last_kind, told_form};
use crate::block::first_kind;
use crate::classes::{begins_expression, goes_on_operand};
use crate::level::{Bracket, innermost, is_behind_operand};
use crate::part::{Parting, behind_first, last_part};
use crate::spot::spot_behind;
use crate::telling::{ToldForm, told};
use py_lexer::{Form, Kind, Token, Value};

pub fn told_if(is_told: bool, form: Form, place: usize) -> Option<ToldForm>
    ensures value { result ≡ told_if is_told form place }
    ensures within { IfSome result (λ f. f.place ≤ place) }
{
    if is_told {
        Some(ToldForm { form, place })
    } else {
        None
    }
}

/// A form in the expression that a run of so many tokens ends in.
pub fn inside(at: usize, expression: &[Token], rest: &[Token]) -> Option<ToldForm>
    ensures value { result ≡ inside at expression.now rest.now }
    ensures within { IfSome result (λ f. f.place ≤ at) }
{
    match told(expression, rest) {
        None => None,
        Some(found) => {
            let behind = expression.len().saturating_sub(found.place);
            Some(ToldForm {
                form: found.form,
                place: at.saturating_sub(behind),
            })
        }
    }
}

/// A star where the expression has no token yet.
fn starred(at: usize, expression: &[Token], kind: Kind) -> Option<ToldForm>
    ensures value { result ≡ starred at expression.now kind }
    ensures within { IfSome result (λ f. f.place ≤ at) }
{
    told_if(expression.len() == 0 && kind == Kind::Star, Form::Star, at)
}

fn begins_name(kind: Option<Kind>) -> bool
    ensures { result ≡ begins_name kind }
{
    match kind {
        Some(Kind::Name) => true,
        _ => false,
    }
}

/// Whether the token is `:=` and the expression is a name so far.
fn is_named(expression: &[Token], kind: Kind) -> bool
    ensures { result ≡ is_named expression.now kind }
{
    kind == Kind::ColonEqual && (expression.len() == 1 && begins_name(first_kind(expression)))
}

/// What is told in a condition.
pub fn condition(at: usize, expression: &[Token], kind: Kind, rest: &[Token]) -> Option<ToldForm>
    ensures value { result ≡ condition at expression.now kind rest.now }
    ensures within { IfSome result (λ f. f.place ≤ at) }
{
    if let Some(found) = inside(at, expression, rest) {
        return Some(found);
    }
    told_if(
        is_named(expression, kind),
        Form::Walrus,
        at.saturating_sub(1),
    )
}

/// What is told in expressions with commas between them.
pub fn items(at: usize, expressions: &[Token], kind: Kind, rest: &[Token]) -> Option<ToldForm>
    ensures value { result ≡ items at expressions.now kind rest.now }
    ensures within { IfSome result (λ f. f.place ≤ at) }
{
    let expression = last_part(Parting::Expressions, expressions);
    if let Some(found) = inside(at, expression, rest) {
        return Some(found);
    }
    starred(at, expression, kind)
}

/// Whether a name of a loop may stand behind the token.
fn before_name(kind: Option<Kind>) -> bool
    ensures { result ≡ before_name kind }
{
    match kind {
        Some(Kind::For) | Some(Kind::Comma) | Some(Kind::LeftParen) => true,
        _ => false,
    }
}

/// What is told in the header of a loop.
pub fn loop_header(at: usize, statement: &[Token], kind: Kind, rest: &[Token]) -> Option<ToldForm>
    ensures value { result ≡ loop_by (behind_first partings.Loop 0 statement.now) at statement.now kind rest.now }
    ensures within { IfSome result (λ f. f.place ≤ at) }
{
    match behind_first(Parting::Loop, statement) {
        Some(expressions) => items(at, expressions, kind, rest),
        None => told_if(
            before_name(last_kind(statement)) && kind == Kind::Star,
            Form::Star,
            at,
        ),
    }
}

fn first_is_name(rest: &[Token]) -> bool
    ensures { result ≡ first_is_name rest.now }
{
    match rest {
        [_, second, ..] => second.kind == Kind::Name,
        _ => false,
    }
}

/// Whether a parameter may stand behind the token.
fn before_parameter(kind: Option<Kind>) -> bool
    ensures { result ≡ before_parameter kind }
{
    match kind {
        Some(Kind::Comma) | Some(Kind::LeftParen) => true,
        _ => false,
    }
}

/// Whether the token begins a parameter with stars.
fn star_parameter(kind: Kind, rest: &[Token]) -> bool
    ensures { result ≡ star_parameter kind rest.now }
{
    match kind {
        Kind::Star => first_is_name(rest),
        Kind::DoubleStar => true,
        _ => false,
    }
}

/// The kind of the token before the last part of a statement.
pub fn separator_of(statement: &[Token], part: &[Token]) -> Option<Kind>
    ensures { result ≡ separator_of statement.now part.now }
{
    let count = statement.len().saturating_sub(part.len());
    match statement.split_at_checked(count) {
        Some((front, _)) => last_kind(front),
        None => None,
    }
}

/// Whether an annotation or a default stands behind the token.
fn before_value(kind: Option<Kind>) -> bool
    ensures { result ≡ before_value kind }
{
    match kind {
        Some(Kind::Colon) | Some(Kind::Equal) | Some(Kind::Arrow) => true,
        _ => false,
    }
}

fn signature_part(
    at: usize,
    statement: &[Token],
    part: &[Token],
    kind: Kind,
    rest: &[Token],
) -> Option<ToldForm>
    ensures value { result ≡ signature_part at statement.now part.now kind rest.now }
    ensures within { IfSome result (λ f. f.place ≤ at) }
{
    let separator = separator_of(statement, part);
    if before_value(separator) {
        return inside(at, part, rest);
    }
    told_if(
        part.len() == 0 && before_parameter(separator) && star_parameter(kind, rest),
        Form::Star,
        at,
    )
}

/// What is told in the header of a function.
pub fn function_header(
    at: usize,
    statement: &[Token],
    kind: Kind,
    rest: &[Token],
) -> Option<ToldForm>
    ensures value { result ≡ function_header at statement.now kind rest.now }
    ensures within { IfSome result (λ f. f.place ≤ at) }
{
    match statement {
        [_, _, _, parameters @ ..] => match behind_first(Parting::Parameters, parameters) {
            Some([]) => None,
            _ => {
                let part = last_part(Parting::Signature, parameters);
                signature_part(at, statement, part, kind, rest)
            }
        },
        _ => None,
    }
}

/// Whether a positional argument stands at the front.
fn is_positional(rest: &[Token]) -> bool
    ensures { result ≡ is_positional rest.now }
{
    match rest {
        [] => false,
        [only] => begins_expression(only.kind),
        [first, second, ..] => begins_expression(first.kind) && second.kind != Kind::Equal,
    }
}

/// The tokens behind the first.
pub fn tail_of(tokens: &[Token]) -> &[Token]
    ensures { result.now ≡ tail_of tokens.now }
{
    match tokens {
        [] => tokens,
        [_, rest @ ..] => rest,
    }
}

/// What is told in the parentheses of a class.
fn base_part(
    at: usize,
    call: &[Token],
    bases: &[Token],
    kind: Kind,
    rest: &[Token],
) -> Option<ToldForm>
    ensures value { result ≡ base_part at call.now bases.now kind rest.now }
    ensures within { IfSome result (λ f. f.place ≤ at) }
{
    match kind {
        Kind::For | Kind::Async => None,
        Kind::Comma => told_if(
            last_kind(bases) == Some(Kind::Name) && is_positional(tail_of(rest)),
            Form::Bases,
            at.saturating_sub(bases.len()),
        ),
        Kind::Equal => told_if(bases.len() == 1, Form::ClassKeyword, at.saturating_sub(1)),
        _ => inside(at, call, rest),
    }
}

fn is_right_paren(kind: Option<Kind>) -> bool
    ensures { result ≡ is_right_paren kind }
{
    match kind {
        Some(Kind::RightParen) => true,
        _ => false,
    }
}

/// What is told in the parentheses of a class, while they are open.
fn open_bases(
    at: usize,
    call: &[Token],
    bases: &[Token],
    kind: Kind,
    rest: &[Token],
) -> Option<ToldForm>
    ensures value { result ≡ open_bases at call.now bases.now kind rest.now }
    ensures within { IfSome result (λ f. f.place ≤ at) }
{
    if is_right_paren(last_kind(bases)) {
        None
    } else {
        base_part(at, call, bases, kind, rest)
    }
}

/// What is told in the header of a class.
pub fn class_header(at: usize, statement: &[Token], kind: Kind, rest: &[Token]) -> Option<ToldForm>
    ensures value { result ≡ class_header at statement.now kind rest.now }
    ensures within { IfSome result (λ f. f.place ≤ at) }
{
    match statement {
        [_, _, _, bases @ ..] => open_bases(at, tail_of(statement), bases, kind, rest),
        _ => None,
    }
}

/// What is told in a `from` import.
pub fn from_import(at: usize, statement: &[Token], kind: Kind) -> Option<ToldForm>
    ensures value { result ≡ from_import at statement.now kind }
    ensures within { IfSome result (λ f. f.place ≤ at) }
{
    let start = at.saturating_sub(statement.len());
    match kind {
        Kind::Dot | Kind::Ellipsis => { told_if(statement.len() == 1, Form::RelativeImport, start) }
        Kind::Star => told_if(
            last_kind(statement) == Some(Kind::Import),
            Form::StarImport,
            start,
        ),
        _ => None,
    }
}

fn method_of(value: &Value) -> Option<Form>
    ensures { result ≡ method_of value.now }
{
    match value {
        Value::Name(name) => match name.as_str() {
            "staticmethod" => Some(Form::StaticMethod),
            "classmethod" => Some(Form::ClassMethod),
            "property" => Some(Form::Property),
            _ => None,
        },
        _ => None,
    }
}

/// The form of a decorator of one name, called or not.
fn method(expression: &[Token], kind: Kind) -> Option<Form>
    ensures { result ≡ method expression.now kind }
{
    match expression {
        [name] => match kind {
            Kind::Newline | Kind::LeftParen => method_of(&name.value),
            _ => None,
        },
        _ => None,
    }
}

/// Whether a token behind a name or a string goes on with a call in which it stands last.
fn ends_argument(last: Option<Kind>, kind: Kind) -> bool
    ensures { result ≡ ends_argument last kind }
{
    match last {
        Some(Kind::Name) => kind == Kind::RightParen || kind == Kind::Comma,
        Some(Kind::Text) => kind == Kind::FStringStart,
        _ => false,
    }
}

/// Whether the full grammar goes on with the token behind the expression of a decorator.
fn goes_on(expression: &[Token], kind: Kind) -> bool
    ensures { result ≡ goes_on expression.now kind }
{
    if is_behind_operand(expression) {
        goes_on_operand(kind)
            || is_named(expression, kind)
            || (innermost(expression) == Bracket::Call
                && ends_argument(last_kind(expression), kind))
    } else {
        spot_behind(expression).takes_operand() && begins_expression(kind)
    }
}

fn decorator_form(expression: &[Token], kind: Kind, rest: &[Token]) -> Option<Form>
    ensures { result ≡ decorator_form expression.now kind rest.now }
{
    form_if(
        told(expression, rest).is_some() || goes_on(expression, kind),
        Form::Decorator,
    )
}

/// What is told in a decorator, at its `@`.
pub fn decorator(at: usize, expression: &[Token], kind: Kind, rest: &[Token]) -> Option<ToldForm>
    ensures value { result ≡ decorator at expression.now kind rest.now }
    ensures within { IfSome result (λ f. f.place ≤ at) }
{
    let start = at.saturating_sub(expression.len()).saturating_sub(1);
    if let Some(form) = method(expression, kind) {
        return told_form(Some(form), start);
    }
    told_form(decorator_form(expression, kind, rest), start)
}
