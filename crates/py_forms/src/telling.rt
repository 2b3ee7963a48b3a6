//! The form that a token tells behind a run.

ghost use Rattle.std.specs.Prelude.{◌≡◌, ◌≤◌, ◌<◌, ◌+◌, ◌-◌, length, IfSome, ◌∷◌};
ghost use Rattle.py_forms.specs.Roles.{role_of, roles_of, back_of};
ghost use Rattle.py_forms.specs.Forms.{told_if, is_whole, bracket_place, may_hold_comprehension, is_first_whole, comprehension, async_comprehension, walrus, call_by, call, slice, set_display, told_by_token, begins_with_equal, is_super_operand, super_before, super_here, told};

use crate::level::{Bracket, Separator, has, innermost, is_behind_operand, outer, waits_for_else};
use crate::primary::{Callee, before_primary, callee_of};
use crate::role::{Role, first_role, last_role};
use crate::spot::spot_behind;
use py_lexer::{Form, Token};

/// A form that is left out, and the place of its first token: its index in the run and the tokens that follow it.
#[derive(Clone, Copy, Debug, PartialEq, Eq)]
pub struct ToldForm {
    pub form: Form,
    pub place: usize,
}

fn told_if(is_told: bool, form: Form, place: usize) -> Option<ToldForm>
    ensures value { result ≡ told_if is_told form place }
    ensures within { IfSome result (λ f. f.place ≡ place) }
{
    if is_told {
        Some(ToldForm { form, place })
    } else {
        None
    }
}

/// Whether an expression of the innermost open bracket ends here.
fn is_whole(run: &[Token]) -> bool
    ensures { result ≡ is_whole (back_of run.now) }
{
    is_behind_operand(run) && !waits_for_else(run)
}

/// Whether the first expression or pair of the innermost open bracket ends here.
fn is_first_whole(run: &[Token]) -> bool
    ensures { result ≡ is_first_whole (back_of run.now) }
{
    !has(Separator::Comma, run) && !has(Separator::Equal, run) && is_whole(run)
}

/// The index of the innermost open bracket, or 0 where none is open.
#[tactic(auto, using(crate::proofs::Backward::length_back_of))]
fn bracket_place(run: &[Token]) -> usize
    ensures value { result ≡ bracket_place (back_of run.now) }
    ensures within { result ≤ length run.now }
{
    outer(run).len().saturating_sub(1)
}

fn may_hold_comprehension(bracket: Bracket) -> bool
    ensures { result ≡ may_hold_comprehension bracket }
{
    match bracket {
        Bracket::Group | Bracket::Call | Bracket::Listing | Bracket::Braces => true,
        Bracket::Subscript | Bracket::Field | Bracket::Outside => false,
    }
}

fn comprehension(run: &[Token]) -> Option<ToldForm>
    ensures value { result ≡ comprehension (back_of run.now) }
    ensures within { IfSome result (λ f. f.place ≤ length run.now) }
{
    let is_told = may_hold_comprehension(innermost(run)) && is_first_whole(run);
    told_if(is_told, Form::Comprehension, bracket_place(run))
}

fn async_comprehension(run: &[Token], after: &[Token]) -> Option<ToldForm>
    ensures value { result ≡ async_comprehension (back_of run.now) (roles_of after.now) }
    ensures within { IfSome result (λ f. f.place ≤ length run.now) }
{
    match first_role(after) {
        None => None,
        Some((role, _)) => {
            if role == Role::For {
                comprehension(run)
            } else {
                None
            }
        }
    }
}

#[tactic(auto, using(crate::proofs::Backward::length_back_of))]
fn walrus(run: &[Token]) -> Option<ToldForm>
    ensures value { result ≡ walrus (back_of run.now) }
    ensures within { IfSome result (λ f. f.place ≤ length run.now) }
{
    match last_role(run) {
        None => None,
        Some((role, before)) => match role {
            Role::Name | Role::Init => told_if(
                spot_behind(before).takes_named(),
                Form::Walrus,
                before.len(),
            ),
            _ => None,
        },
    }
}

fn call_by(callee: Callee, place: usize) -> Option<ToldForm>
    ensures value { result ≡ call_by callee place }
    ensures within { IfSome result (λ f. f.place ≡ place) }
{
    match callee {
        Callee::Named => None,
        Callee::Init => Some(ToldForm {
            form: Form::InitCall,
            place,
        }),
        Callee::Unnamed => Some(ToldForm {
            form: Form::Callee,
            place,
        }),
    }
}

#[tactic(auto, using(crate::proofs::Backward::length_back_of))]
fn call(run: &[Token]) -> Option<ToldForm>
    ensures value { result ≡ call (back_of run.now) }
    ensures within { IfSome result (λ f. f.place ≤ length run.now) }
{
    let before = before_primary(run);
    if is_behind_operand(run) && spot_behind(before).takes_operand() {
        call_by(callee_of(run), before.len())
    } else {
        None
    }
}

#[tactic(auto, using(crate::proofs::Backward::length_back_of))]
fn slice(run: &[Token]) -> Option<ToldForm>
    ensures value { result ≡ slice (back_of run.now) }
    ensures within { IfSome result (λ f. f.place ≤ length run.now) }
{
    let is_told = spot_behind(run).takes_slice()
        || (innermost(run) == Bracket::Subscript && is_whole(run));
    told_if(is_told, Form::Slice, run.len())
}

fn set_display(run: &[Token]) -> Option<ToldForm>
    ensures value { result ≡ set_display (back_of run.now) }
    ensures within { IfSome result (λ f. f.place ≤ length run.now) }
{
    let is_told = innermost(run) == Bracket::Braces
        && !has(Separator::Colon, run)
        && is_first_whole(run);
    told_if(is_told, Form::Set, bracket_place(run))
}

/// What the token with this role tells, `super` apart.
#[tactic(auto, using(crate::proofs::Backward::length_back_of))]
fn told_by_token(role: Role, run: &[Token], after: &[Token]) -> Option<ToldForm>
    ensures value { result ≡ told_by_token role (back_of run.now) (roles_of after.now) }
    ensures within { IfSome result (λ f. f.place ≤ length run.now) }
{
    let at = run.len();
    match role {
        Role::Await => told_if(spot_behind(run).takes_operand(), Form::Await, at),
        Role::Bytes => told_if(spot_behind(run).takes_operand(), Form::Bytes, at),
        Role::Float => told_if(spot_behind(run).takes_operand(), Form::Float, at),
        Role::Lambda => told_if(spot_behind(run).takes_expression(), Form::Lambda, at),
        Role::Yield => told_if(spot_behind(run).takes_yield(), Form::Yield, at),
        Role::Star => told_if(spot_behind(run).takes_star(), Form::Star, at),
        Role::DoubleStar => told_if(spot_behind(run).takes_double_star(), Form::Star, at),
        Role::For => comprehension(run),
        Role::Async => async_comprehension(run, after),
        Role::ColonEqual => walrus(run),
        Role::LeftParen => call(run),
        Role::Colon => slice(run),
        Role::Comma => set_display(run),
        Role::RightBrace => set_display(run),
        _ => None,
    }
}

fn begins_with_equal(after: &[Token]) -> bool
    ensures { result ≡ begins_with_equal (roles_of after.now) }
{
    match first_role(after) {
        None => false,
        Some((role, _)) => role == Role::Equal,
    }
}

/// Whether the token is `super` as an operand behind a run, where these tokens follow it.
fn is_super_operand(run: &[Token], role: Role, after: &[Token]) -> bool
    ensures { result ≡ is_super_operand (back_of run.now) role (roles_of after.now) }
{
    let spot = spot_behind(run);
    role == Role::Super
        && spot.takes_operand()
        && !(spot.takes_keyword() && begins_with_equal(after))
}

#[tactic(auto, using(crate::proofs::Backward::length_back_of))]
fn super_before(run: &[Token], rest: &[Token]) -> Option<ToldForm>
    ensures value { result ≡ super_before (back_of run.now) (roles_of rest.now) }
    ensures within { IfSome result (λ f. f.place ≤ length run.now) }
{
    match last_role(run) {
        None => None,
        Some((role, before)) => told_if(
            is_super_operand(before, role, rest),
            Form::Super,
            before.len(),
        ),
    }
}

#[tactic(auto, using(crate::proofs::Backward::length_back_of))]
fn super_here(run: &[Token], role: Role, after: &[Token]) -> Option<ToldForm>
    ensures value { result ≡ super_here (back_of run.now) role (roles_of after.now) }
    ensures within { IfSome result (λ f. f.place ≤ length run.now) }
{
    told_if(is_super_operand(run, role, after), Form::Super, run.len())
}

/// The form that is left out which the first token of `rest` tells behind `run`, or `None` where it tells none.
///
/// `run` is the longest run of tokens with which an expression of the subset begins, and `rest` what follows it: the token
/// that tells is its first one, and none is told where `rest` is empty. The place is an index in `run` and `rest` together,
/// of a token of `run` or of the first of `rest`.
/// `None` says that the full grammar of the Language Reference doesn't go on with that token either, or that it goes on with
/// what only the statement round the expression can tell: a `yield`, a star or a `:=` outside of all brackets.
/// Linear in the run.
#[tactic(auto, unfolding(crate::specs::Forms::told))]
pub fn told(run: &[Token], rest: &[Token]) -> Option<ToldForm>
    ensures value { result ≡ told (back_of run.now) (roles_of rest.now) }
    ensures within { IfSome result (λ f. f.place ≤ length run.now) }
    ensures behind { IfSome result (λ f. 0 < length rest.now) }
{
    match first_role(rest) {
        None => None,
        Some((role, after)) => {
            if let Some(form) = super_before(run, rest) {
                Some(form)
            } else if let Some(form) = super_here(run, role, after) {
                Some(form)
            } else {
                told_by_token(role, run, after)
            }
        }
    }
}
