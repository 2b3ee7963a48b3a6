//! Forms that aren't read.

ghost use Rattle.std.specs.Prelude.{◌≡◌, ◌<◌, ◌≤◌, suc, length, MatchOption};
ghost use Rattle.pysa_syntax.specs.Symbols.{text_in};
ghost use Rattle.pysa_syntax.specs.Forms.{bracket_form, decorator_form, query_form, named_form, at_form, form_of, begins_line, form_at, NoForm};

use crate::symbol::{Symbol, is, symbol_of};
use py_lexer::{Form, Token, Value};

/// The form of this name before a bracket.
fn bracket_form(text: &str) -> Option<Form>
    ensures { result ≡ bracket_form text.now }
{
    match text {
        "AppliesTo" => Some(Form::AppliesTo),
        "ParameterPath" => Some(Form::ParameterPath),
        "ReturnPath" => Some(Form::ReturnPath),
        "Via" => Some(Form::Via),
        "Updates" => Some(Form::Updates),
        "Transform" => Some(Form::Transform),
        "PartialSink" => Some(Form::PartialSink),
        _ => None,
    }
}

/// The form of this name behind an `@`.
fn decorator_form(text: &str) -> Option<Form>
    ensures { result ≡ decorator_form text.now }
{
    match text {
        "SkipAnalysis" => Some(Form::SkipAnalysis),
        "SkipOverrides" => Some(Form::SkipOverrides),
        "Sanitize" => Some(Form::Sanitize),
        _ => None,
    }
}

/// The form of this name before a parenthesis, where a logical line begins with it or not.
fn query_form(begins: bool, text: &str) -> Option<Form>
    ensures { result ≡ query_form begins text.now }
{
    if begins && text == "ModelQuery" {
        Some(Form::ModelQuery)
    } else {
        None
    }
}

/// The form of a name, by the symbol behind it.
fn named_form(begins: bool, text: &str, next: Symbol) -> Option<Form>
    ensures { result ≡ named_form begins text.now next }
{
    match next {
        Symbol::LeftBracket => bracket_form(text),
        Symbol::LeftParen => query_form(begins, text),
        _ => None,
    }
}

/// The form of an `@`, by the token behind it.
fn at_form(next: Symbol, text: &str) -> Option<Form>
    ensures { result ≡ at_form next text.now }
{
    match next {
        Symbol::Name => decorator_form(text),
        _ => None,
    }
}

/// The text of a name.
fn text_in(token: &Token) -> &str
    ensures { result.now ≡ text_in token.now.value }
{
    match &token.value {
        Value::Name(name) => name.as_str(),
        _ => "",
    }
}

/// The form that begins with two tokens.
#[tactic(auto, unfolding(crate::specs::Forms::form_of))]
fn form_of(begins: bool, first: &Token, second: &Token) -> Option<Form>
    ensures { result ≡ form_of begins first.now second.now }
{
    match symbol_of(first) {
        Symbol::Name => named_form(begins, text_in(first), symbol_of(second)),
        Symbol::At => at_form(symbol_of(second), text_in(second)),
        _ => None,
    }
}

/// Whether a logical line begins with the token at this index.
fn begins_line(tokens: &[Token], index: usize) -> bool
    requires { index < length tokens.now }
    ensures { result ≡ begins_line tokens.now index }
{
    index == 0 || is(&tokens[index - 1], Symbol::Newline)
}

/// The form that begins with the token at this index.
#[tactic(auto, unfolding(crate::specs::Forms::form_at))]
fn form_at(tokens: &[Token], index: usize) -> Option<Form>
    requires { index < length tokens.now }
    ensures { result ≡ form_at tokens.now index }
{
    let begins = begins_line(tokens, index);
    match &tokens[index..] {
        [first, second, ..] => form_of(begins, first, second),
        [_] => None,
        [] => None,
    }
}

/// The first form that begins no later than at this index, and its index.
pub fn first_form(tokens: &[Token], last: usize) -> Option<(Form, usize)>
    requires { last < length tokens.now }
    ensures { MatchOption result (NoForm tokens.now (suc last)) (λ x. (x.1 ≤ last) × (form_at tokens.now x.1 ≡ Some x.0) × NoForm tokens.now x.1) }
{
    for index in 0..last + 1 {
        if let Some(form) = form_at(tokens, index) {
            return Some((form, index));
        }
    }
    None
}
