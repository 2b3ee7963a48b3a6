//! The innermost open bracket of a run, and what stands inside of it.

ghost use Rattle.std.specs.Prelude.{◌≡◌, ◌+◌, ◌^◌, ◌<◌, ◌≤◌, length, Bool, ℕ};
ghost use Rattle.py_forms.specs.Roles.{back_of};
ghost use Rattle.py_forms.specs.Levels.{opens, closes, ends_operand, is_behind_operand, step, outer, bracket_by, bracket_of, bracket, separates, has, waits_at, waits_for_else};

use crate::role::{Role, last_role};
use py_lexer::Token;

/// The innermost bracket that is open at the end of a run.
#[derive(Clone, Copy, Debug, PartialEq, Eq)]
pub enum Bracket {
    /// Parentheses round an expression or a tuple.
    Group,
    /// The arguments of a call.
    Call,
    /// A list display.
    Listing,
    Subscript,
    /// A dictionary, or what would be a set.
    Braces,
    /// A field of a formatted string.
    Field,
    /// None, or the text of a formatted string.
    Outside,
}

/// Where a token stands, seen from the end of a run.
#[derive(Clone, Copy, Debug, PartialEq, Eq)]
pub enum Step {
    /// Inside of brackets that close again, or at one of them; so many close behind what stands before it.
    Skip(usize),
    /// Inside of the innermost open bracket, or outside of all.
    Inside,
    /// It is the innermost open bracket.
    Open,
}

/// What parts the items in brackets.
#[derive(Clone, Copy, Debug, PartialEq, Eq)]
pub enum Separator {
    Comma,
    Colon,
    Equal,
}

#[tactic(auto, unfolding(crate::specs::Levels::opens))]
fn opens(role: Role) -> bool
    ensures { result ≡ opens role }
{
    match role {
        Role::LeftParen
        | Role::LeftBracket
        | Role::LeftBrace
        | Role::FieldOpen
        | Role::FStringStart => true,
        _ => false,
    }
}

#[tactic(auto, unfolding(crate::specs::Levels::closes))]
fn closes(role: Role) -> bool
    ensures { result ≡ closes role }
{
    match role {
        Role::RightParen
        | Role::RightBracket
        | Role::RightBrace
        | Role::FieldClose
        | Role::FStringEnd => true,
        _ => false,
    }
}

#[tactic(auto, unfolding(crate::specs::Levels::ends_operand))]
fn ends_operand(role: Role) -> bool
    ensures { result ≡ ends_operand role }
{
    match role {
        Role::Name
        | Role::Super
        | Role::Init
        | Role::Literal
        | Role::Text
        | Role::Float
        | Role::Bytes
        | Role::FStringEnd
        | Role::RightParen
        | Role::RightBracket
        | Role::RightBrace => true,
        _ => false,
    }
}

/// Whether an operand ends where the run does.
pub fn is_behind_operand(run: &[Token]) -> bool
    ensures { result ≡ is_behind_operand (back_of run.now) }
{
    match last_role(run) {
        None => false,
        Some((role, _)) => ends_operand(role),
    }
}

/// Where a token stands, with so many brackets that close behind it and don't open there.
#[tactic(auto, unfolding(crate::specs::Levels::step))]
pub fn step_at(closed: usize, role: Role) -> Step
    requires { closed < 2 ^ 63 }
    ensures value { result ≡ step closed role }
    ensures few { (count : ℕ) → result ≡ Step.Skip count → count ≤ closed + 1 }
{
    if closes(role) {
        Step::Skip(closed + 1)
    } else if opens(role) {
        if closed == 0 {
            Step::Open
        } else {
            Step::Skip(closed - 1)
        }
    } else if closed == 0 {
        Step::Inside
    } else {
        Step::Skip(closed)
    }
}

/// The run up to its innermost open bracket, and with it.
#[tactic(auto, using(crate::proofs::Outward::outer_none, crate::proofs::Outward::outer_skip, crate::proofs::Outward::outer_inside, crate::proofs::Outward::outer_open))]
pub fn outer(run: &[Token]) -> &[Token]
    ensures value { back_of result.now ≡ outer 0 (back_of run.now) }
    ensures within { length result.now ≤ length run.now }
{
    let mut rest = run;
    let mut closed = 0usize;
    'outward: while let Some((role, front)) = last_role(rest) {
        match step_at(closed, role) {
            Step::Skip(count) => closed = count,
            Step::Inside => closed = 0,
            Step::Open => return rest,
        }
        rest = front;
    }
    rest
}

/// The bracket that this token opens behind a run.
pub fn bracket_by(role: Role, before: &[Token]) -> Bracket
    ensures { result ≡ bracket_by role (back_of before.now) }
{
    match role {
        Role::LeftParen => {
            if is_behind_operand(before) {
                Bracket::Call
            } else {
                Bracket::Group
            }
        }
        Role::LeftBracket => {
            if is_behind_operand(before) {
                Bracket::Subscript
            } else {
                Bracket::Listing
            }
        }
        Role::LeftBrace => Bracket::Braces,
        Role::FieldOpen => Bracket::Field,
        _ => Bracket::Outside,
    }
}

/// The innermost open bracket of a run.
pub fn innermost(run: &[Token]) -> Bracket
    ensures { result ≡ bracket (back_of run.now) }
{
    match last_role(outer(run)) {
        None => Bracket::Outside,
        Some((role, before)) => bracket_by(role, before),
    }
}

fn separates(separator: Separator, role: Role) -> bool
    ensures { result ≡ separates separator role }
{
    match separator {
        Separator::Comma => role == Role::Comma,
        Separator::Colon => role == Role::Colon,
        Separator::Equal => role == Role::Equal,
    }
}

/// Whether such a separator stands in the innermost open bracket.
#[tactic(auto, using(crate::proofs::Outward::has_none, crate::proofs::Outward::has_skip, crate::proofs::Outward::has_found, crate::proofs::Outward::has_further, crate::proofs::Outward::has_open))]
pub fn has(separator: Separator, run: &[Token]) -> bool
    ensures { result ≡ has separator (back_of run.now) }
{
    let mut rest = run;
    let mut closed = 0usize;
    'outward: while let Some((role, front)) = last_role(rest) {
        match step_at(closed, role) {
            Step::Skip(count) => closed = count,
            Step::Inside => {
                if separates(separator, role) {
                    return true;
                }
                closed = 0;
            }
            Step::Open => return false,
        }
        rest = front;
    }
    false
}

/// What a token says of a conditional that waits for its `else`, seen from the end of a run.
fn waits_at(role: Role) -> Option<bool>
    ensures { result ≡ waits_at role }
{
    match role {
        Role::If => Some(true),
        Role::Else | Role::Comma | Role::Colon | Role::Equal => Some(false),
        _ => None,
    }
}

/// Whether the last item of the innermost open bracket waits for its `else`.
#[tactic(auto, using(crate::proofs::Outward::waits_none, crate::proofs::Outward::waits_skip, crate::proofs::Outward::waits_found, crate::proofs::Outward::waits_further, crate::proofs::Outward::waits_open))]
pub fn waits_for_else(run: &[Token]) -> bool
    ensures { result ≡ waits_for_else 0 (back_of run.now) }
{
    let mut rest = run;
    let mut closed = 0usize;
    'outward: while let Some((role, front)) = last_role(rest) {
        match step_at(closed, role) {
            Step::Skip(count) => closed = count,
            Step::Inside => {
                if let Some(waits) = waits_at(role) {
                    return waits;
                }
                closed = 0;
            }
            Step::Open => return false,
        }
        rest = front;
    }
    false
}
