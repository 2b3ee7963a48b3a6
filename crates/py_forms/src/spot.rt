//! What may begin behind a run.

ghost use Rattle.std.specs.Prelude.{◌≡◌};
ghost use Rattle.py_forms.specs.Roles.{back_of};
ghost use Rattle.py_forms.specs.Spots.{spot_by, spot, takes_operand, takes_expression, takes_keyword, takes_yield, takes_item, takes_star, takes_mapping, takes_double_star, takes_first_named, takes_named, takes_slice};

use crate::level::{Bracket, Separator, bracket_by, has, innermost, is_behind_operand};
use crate::role::{Role, last_role};
use py_lexer::Token;

/// What may begin behind a run.
#[derive(Clone, Copy, Debug, PartialEq, Eq)]
pub enum Spot {
    /// The expression itself.
    Start,
    /// The first item of this bracket.
    First(Bracket),
    /// A further item of this bracket.
    Later(Bracket),
    /// An argument behind one with a keyword.
    BehindKeyword,
    /// A whole expression that is no item.
    Value,
    /// An operand.
    Operand,
    /// Nothing that the forms begin with.
    Nowhere,
}

fn spot_by(role: Role, before: &[Token]) -> Spot
    ensures { result ≡ spot_by role (back_of before.now) }
{
    match role {
        Role::LeftParen => Spot::First(bracket_by(role, before)),
        Role::LeftBracket => Spot::First(bracket_by(role, before)),
        Role::LeftBrace => Spot::First(Bracket::Braces),
        Role::FieldOpen => Spot::First(Bracket::Field),
        Role::Comma => {
            if has(Separator::Equal, before) {
                Spot::BehindKeyword
            } else {
                Spot::Later(innermost(before))
            }
        }
        Role::Colon | Role::Equal | Role::Else => Spot::Value,
        Role::If | Role::Star | Role::DoubleStar | Role::Operator => Spot::Operand,
        Role::Not => {
            if is_behind_operand(before) {
                Spot::Nowhere
            } else {
                Spot::Operand
            }
        }
        _ => Spot::Nowhere,
    }
}

/// What may begin behind a run.
pub fn spot_behind(run: &[Token]) -> Spot
    ensures { result ≡ spot (back_of run.now) }
{
    match last_role(run) {
        None => Spot::Start,
        Some((role, before)) => spot_by(role, before),
    }
}

impl Spot {
    /// Whether an operand may begin.
    pub fn takes_operand(self) -> bool
        ensures { result ≡ takes_operand self }
    {
        match self {
            Spot::Start | Spot::First(_) | Spot::Later(_) | Spot::Value | Spot::Operand => true,
            Spot::BehindKeyword | Spot::Nowhere => false,
        }
    }

    /// Whether a whole expression may begin.
    pub fn takes_expression(self) -> bool
        ensures { result ≡ takes_expression self }
    {
        match self {
            Spot::Start | Spot::First(_) | Spot::Later(_) | Spot::Value => true,
            Spot::BehindKeyword | Spot::Operand | Spot::Nowhere => false,
        }
    }

    /// Whether an argument with a keyword may begin.
    pub fn takes_keyword(self) -> bool
        ensures { result ≡ takes_keyword self }
    {
        match self {
            Spot::First(Bracket::Call) | Spot::Later(Bracket::Call) | Spot::BehindKeyword => true,
            _ => false,
        }
    }

    /// Whether a `yield` may begin.
    pub fn takes_yield(self) -> bool
        ensures { result ≡ takes_yield self }
    {
        match self {
            Spot::First(Bracket::Group) => true,
            _ => false,
        }
    }

    /// Whether a starred item or argument may begin.
    pub fn takes_star(self) -> bool
        ensures { result ≡ takes_star self }
    {
        match self {
            Spot::First(_) | Spot::BehindKeyword => true,
            Spot::Later(bracket) => takes_item(bracket),
            _ => false,
        }
    }

    /// Whether a pair or argument with two stars may begin.
    pub fn takes_double_star(self) -> bool
        ensures { result ≡ takes_double_star self }
    {
        match self {
            Spot::BehindKeyword => true,
            Spot::First(bracket) => takes_mapping(bracket),
            Spot::Later(bracket) => takes_mapping(bracket),
            _ => false,
        }
    }

    /// Whether a named expression may begin.
    pub fn takes_named(self) -> bool
        ensures { result ≡ takes_named self }
    {
        match self {
            Spot::First(bracket) => takes_first_named(bracket),
            Spot::Later(bracket) => takes_item(bracket),
            _ => false,
        }
    }

    /// Whether a slice without its lower bound may begin.
    pub fn takes_slice(self) -> bool
        ensures { result ≡ takes_slice self }
    {
        match self {
            Spot::First(Bracket::Subscript) | Spot::Later(Bracket::Subscript) => true,
            _ => false,
        }
    }
}

fn takes_item(bracket: Bracket) -> bool
    ensures { result ≡ takes_item bracket }
{
    match bracket {
        Bracket::Group | Bracket::Call | Bracket::Listing | Bracket::Subscript => true,
        Bracket::Braces | Bracket::Field | Bracket::Outside => false,
    }
}

fn takes_mapping(bracket: Bracket) -> bool
    ensures { result ≡ takes_mapping bracket }
{
    match bracket {
        Bracket::Call | Bracket::Braces => true,
        Bracket::Group
        | Bracket::Listing
        | Bracket::Subscript
        | Bracket::Field
        | Bracket::Outside => false,
    }
}

fn takes_first_named(bracket: Bracket) -> bool
    ensures { result ≡ takes_first_named bracket }
{
    match bracket {
        Bracket::Field | Bracket::Outside => false,
        Bracket::Group | Bracket::Call | Bracket::Listing | Bracket::Subscript | Bracket::Braces =>
            true,
    }
}
