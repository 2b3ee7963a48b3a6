//! What is told where a statement may begin.

ghost use Rattle.std.specs.Prelude.{◌≡◌, ◌≤◌, ◌&&◌, length, Option, IfSome, ℕ};
ghost use Rattle.py_forms.specs.Parts.{kinds_back};
ghost use Rattle.py_forms.specs.Statements.{told_form, form_if, last_kind, awaits_indent, is_decorated, is_loop_of, is_behind_loop, is_else, begins_form, begins_any, fresh, beginning};

use crate::block::{Block, block_round, first_word, last_kind_of, owner};
use crate::classes::begins_operand;
use crate::header::inside;
use crate::part::line;
use crate::telling::ToldForm;
use py_lexer::{Form, Kind, Token};

/// A form at a place.
pub fn told_form(form: Option<Form>, place: usize) -> Option<ToldForm>
    ensures value { result ≡ told_form form place }
    ensures within { IfSome result (λ f. f.place ≤ place) }
{
    match form {
        None => None,
        Some(form) => Some(ToldForm { form, place }),
    }
}

pub fn form_if(is_told: bool, form: Form) -> Option<Form>
    ensures { result ≡ form_if is_told form }
{
    if is_told { Some(form) } else { None }
}

/// The kind of the last token.
pub fn last_kind(run: &[Token]) -> Option<Kind>
    ensures { result ≡ last_kind run.now }
{
    match last_kind_of(run) {
        None => None,
        Some((kind, _)) => Some(kind),
    }
}

/// Whether the run ends behind the `:` of a header and the end of its line.
fn awaits_indent(run: &[Token]) -> bool
    ensures { result ≡ awaits_indent (kinds_back run.now) }
{
    match last_kind_of(run) {
        Some((Kind::Newline, before)) => match last_kind_of(before) {
            Some((Kind::Colon, _)) => true,
            _ => false,
        },
        _ => false,
    }
}

/// Whether the run ends behind the line of a decorator.
fn is_decorated(run: &[Token]) -> bool
    ensures { result ≡ is_decorated (kinds_back run.now) }
{
    match last_kind_of(run) {
        Some((Kind::Newline, before)) => first_word(Kind::Newline, before) == Kind::At,
        _ => false,
    }
}

fn is_loop_of(owner: Option<Kind>) -> bool
    ensures { result ≡ is_loop_of owner }
{
    match owner {
        Some(Kind::While) | Some(Kind::For) => true,
        _ => false,
    }
}

/// Whether a loop ends where the run does.
fn is_behind_loop(run: &[Token]) -> bool
    ensures { result ≡ is_behind_loop (kinds_back run.now) }
{
    match last_kind_of(run) {
        Some((Kind::Dedent, before)) => is_loop_of(owner(before)),
        Some((Kind::Newline, before)) => match last_kind_of(before) {
            Some((Kind::Colon, _)) => false,
            _ => is_loop_of(Some(first_word(Kind::Newline, before))),
        },
        _ => false,
    }
}

/// What a token tells that begins a statement in a block, on a line of its own where `is_fresh` says so.
#[tactic(auto, unfolding(crate::specs::Statements::begins_form))]
fn begins_form(is_fresh: bool, block: Block, kind: Kind) -> Option<Form>
    ensures { result ≡ begins_form is_fresh block kind }
{
    match kind {
        Kind::With => form_if(is_fresh, Form::With),
        Kind::Try => form_if(is_fresh, Form::Try),
        Kind::Raise => Some(Form::Raise),
        Kind::Global => Some(Form::Global),
        Kind::Nonlocal => Some(Form::Nonlocal),
        Kind::Del => Some(Form::Del),
        Kind::Yield => Some(Form::Yield),
        Kind::Star => Some(Form::Star),
        Kind::Def => form_if(is_fresh && block == Block::Other, Form::InnerDef),
        Kind::Import | Kind::From => form_if(block != Block::File, Form::InnerImport),
        Kind::If | Kind::While | Kind::For => {
            form_if(is_fresh && block == Block::Class, Form::ClassStatement)
        }
        Kind::Assert => form_if(block == Block::Class, Form::ClassStatement),
        _ => form_if(
            block == Block::Class && begins_operand(kind),
            Form::ClassStatement,
        ),
    }
}

/// The same, where decorators may stand before it.
fn begins_any(is_fresh: bool, is_decorated: bool, block: Block, kind: Kind) -> Option<Form>
    ensures { result ≡ begins_any is_fresh is_decorated block kind }
{
    match kind {
        Kind::Async => form_if(is_fresh, Form::Async),
        Kind::Class => form_if(is_fresh && block != Block::File, Form::InnerClass),
        _ => {
            if is_decorated {
                None
            } else {
                begins_form(is_fresh, block, kind)
            }
        }
    }
}

/// Whether a run ends where a line begins.
fn fresh(run: &[Token]) -> bool
    ensures { result ≡ fresh run.now }
{
    line(run).len() == 0
}

/// Whether only an INDENT goes on with a run.
fn awaits(run: &[Token]) -> bool
    ensures { result ≡ (fresh run.now && awaits_indent (kinds_back run.now)) }
{
    fresh(run) && awaits_indent(run)
}

/// Whether only a definition or a decorator goes on with a run.
fn decorated(run: &[Token]) -> bool
    ensures { result ≡ (fresh run.now && is_decorated (kinds_back run.now)) }
{
    fresh(run) && is_decorated(run)
}

/// Whether the token is the `else` of a loop behind a run.
fn is_loop_else(run: &[Token], kind: Kind) -> bool
    ensures { result ≡ (fresh run.now && (is_else kind && is_behind_loop (kinds_back run.now))) }
{
    fresh(run) && (kind == Kind::Else && is_behind_loop(run))
}

/// What a token of this kind tells, the first of `rest`, where a statement may begin behind the run.
pub fn beginning(run: &[Token], kind: Kind, rest: &[Token]) -> Option<ToldForm>
    ensures value { result ≡ beginning run.now kind rest.now }
    ensures within { IfSome result (λ f. f.place ≤ length run.now) }
{
    if awaits(run) {
        return None;
    }
    if decorated(run) {
        return told_form(begins_any(true, true, block_round(run), kind), run.len());
    }
    if is_loop_else(run, kind) {
        return Some(ToldForm {
            form: Form::LoopElse,
            place: run.len(),
        });
    }
    if let Some(form) = inside(run.len(), &[], rest) {
        return Some(form);
    }
    let begins = begins_any(fresh(run), false, block_round(run), kind);
    told_form(begins, run.len())
}
