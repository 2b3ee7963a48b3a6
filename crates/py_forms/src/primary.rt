//! The primary that ends a run, and what it calls.

ghost use Rattle.std.specs.Prelude.{◌≡◌, ◌+◌, ◌-◌, ◌≤◌, length};
ghost use Rattle.py_forms.specs.Roles.{back_of};
ghost use Rattle.py_forms.specs.Primaries.{is_behind_dot, is_behind_string, goes_on, before_primary, is_right_paren, unwrapped, is_only_wrapped, callee_by, callee};

use crate::level::{Step, is_behind_operand, step_at};
use crate::role::{Role, last_role};
use py_lexer::Token;

/// What a call would call.
#[derive(Clone, Copy, Debug, PartialEq, Eq)]
pub enum Callee {
    /// A name or an attribute, perhaps in parentheses.
    Named,
    /// One of these that is called `__init__`.
    Init,
    /// Any other primary.
    Unnamed,
}

fn is_behind_dot(run: &[Token]) -> bool
    ensures { result ≡ is_behind_dot (back_of run.now) }
{
    match last_role(run) {
        None => false,
        Some((role, _)) => role == Role::Dot,
    }
}

fn is_behind_string(run: &[Token]) -> bool
    ensures { result ≡ is_behind_string (back_of run.now) }
{
    match last_role(run) {
        None => false,
        Some((role, _)) => match role {
            Role::Text | Role::FStringEnd => true,
            _ => false,
        },
    }
}

/// Whether the primary of this token begins before it.
#[tactic(auto, unfolding(crate::specs::Primaries::goes_on))]
fn goes_on(role: Role, before: &[Token]) -> bool
    ensures { result ≡ goes_on role (back_of before.now) }
{
    match role {
        Role::Dot => true,
        Role::LeftParen | Role::LeftBracket => is_behind_operand(before),
        Role::Name | Role::Super | Role::Init => is_behind_dot(before),
        Role::Text | Role::FStringStart => is_behind_string(before),
        _ => false,
    }
}

/// What stands before the primary that ends a run.
#[tactic(auto, using(crate::proofs::Outward::primary_none, crate::proofs::Outward::primary_open, crate::proofs::Outward::primary_first, crate::proofs::Outward::primary_goes_on, crate::proofs::Outward::primary_opened, crate::proofs::Outward::primary_reopened, crate::proofs::Outward::primary_skip))]
pub fn before_primary(run: &[Token]) -> &[Token]
    ensures value { back_of result.now ≡ before_primary 0 (back_of run.now) }
    ensures within { length result.now ≤ length run.now }
{
    let mut rest = run;
    let mut closed = 0usize;
    'outward: while let Some((role, front)) = last_role(rest) {
        match step_at(closed, role) {
            Step::Open => return rest,
            Step::Inside => {
                if !goes_on(role, front) {
                    return front;
                }
                closed = 0;
            }
            Step::Skip(count) => {
                if count == 0 && !goes_on(role, front) {
                    return front;
                }
                closed = count;
            }
        }
        rest = front;
    }
    rest
}

fn is_right_paren(role: Role) -> bool
    ensures { result ≡ is_right_paren role }
{
    match role {
        Role::RightParen => true,
        _ => false,
    }
}

/// A run without the parentheses that close at its end.
#[tactic(auto, using(crate::proofs::Outward::unwrapped_none, crate::proofs::Outward::unwrapped_more, crate::proofs::Outward::unwrapped_done))]
pub fn unwrapped(run: &[Token]) -> &[Token]
    ensures value { back_of result.now ≡ unwrapped (back_of run.now) }
    ensures within { length result.now ≤ length run.now }
{
    let mut rest = run;
    'closed: while let Some((role, front)) = last_role(rest) {
        if !is_right_paren(role) {
            return rest;
        }
        rest = front;
    }
    rest
}

fn callee_by(name: &[Token], only_wrapped: bool) -> Callee
    ensures { result ≡ callee_by (back_of name.now) only_wrapped }
{
    if !only_wrapped {
        return Callee::Unnamed;
    }
    match last_role(name) {
        None => Callee::Unnamed,
        Some((role, _)) => match role {
            Role::Name | Role::Super => Callee::Named,
            Role::Init => Callee::Init,
            _ => Callee::Unnamed,
        },
    }
}

/// What a call behind a run would call.
#[tactic(auto, using(crate::proofs::Backward::length_back_of))]
pub fn callee_of(run: &[Token]) -> Callee
    ensures { result ≡ callee (back_of run.now) }
{
    let name = unwrapped(run);
    let parens = run.len() - name.len();
    let only_wrapped = before_primary(name).len() == before_primary(run).len() + parens;
    callee_by(name, only_wrapped)
}
