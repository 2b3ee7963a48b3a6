//! What single tokens begin, and with what they go on.

ghost use Rattle.std.specs.Prelude.{◌≡◌};
ghost use Rattle.py_forms.specs.Classes.{begins_operand, begins_expression, is_bitwise_or_comparison, is_binary, goes_on_operand};

use py_lexer::Kind;

/// Whether the token begins an operand, but a name or what tells a form of its own.
#[tactic(auto, unfolding(crate::specs::Classes::begins_operand))]
pub fn begins_operand(kind: Kind) -> bool
    ensures { result ≡ begins_operand kind }
{
    match kind {
        Kind::Number
        | Kind::Text
        | Kind::FStringStart
        | Kind::False
        | Kind::None
        | Kind::True
        | Kind::Ellipsis
        | Kind::LeftParen
        | Kind::LeftBracket
        | Kind::LeftBrace
        | Kind::Plus
        | Kind::Minus
        | Kind::Tilde
        | Kind::Not => true,
        _ => false,
    }
}

/// Whether the token begins an expression of the full grammar.
#[tactic(auto, unfolding(crate::specs::Classes::begins_expression))]
pub fn begins_expression(kind: Kind) -> bool
    ensures { result ≡ begins_expression kind }
{
    match kind {
        Kind::Name | Kind::Float | Kind::Bytes | Kind::Await | Kind::Lambda => true,
        _ => begins_operand(kind),
    }
}

#[tactic(auto, unfolding(crate::specs::Classes::is_bitwise_or_comparison))]
fn is_bitwise_or_comparison(kind: Kind) -> bool
    ensures { result ≡ is_bitwise_or_comparison kind }
{
    match kind {
        Kind::LeftShift
        | Kind::RightShift
        | Kind::Ampersand
        | Kind::Bar
        | Kind::Caret
        | Kind::Less
        | Kind::Greater
        | Kind::LessEqual
        | Kind::GreaterEqual
        | Kind::DoubleEqual
        | Kind::NotEqual => true,
        _ => false,
    }
}

/// Whether the token is a binary operator or comparison, or begins one.
#[tactic(auto, unfolding(crate::specs::Classes::is_binary))]
fn is_binary(kind: Kind) -> bool
    ensures { result ≡ is_binary kind }
{
    match kind {
        Kind::And
        | Kind::Or
        | Kind::In
        | Kind::Is
        | Kind::Not
        | Kind::Plus
        | Kind::Minus
        | Kind::Star
        | Kind::DoubleStar
        | Kind::Slash
        | Kind::DoubleSlash
        | Kind::Percent
        | Kind::At => true,
        _ => is_bitwise_or_comparison(kind),
    }
}

/// Whether the token goes on with an operand: an operator, a conditional, an attribute, a subscript or a call.
#[tactic(auto, unfolding(crate::specs::Classes::goes_on_operand))]
pub fn goes_on_operand(kind: Kind) -> bool
    ensures { result ≡ goes_on_operand kind }
{
    match kind {
        Kind::If | Kind::Dot | Kind::LeftParen | Kind::LeftBracket => true,
        _ => is_binary(kind),
    }
}
