//! What a token is to the forms.

ghost use Rattle.std.specs.Prelude.{◌≡◌, ◌+◌, [], ◌∷◌, length, MatchOption, IfSome};
ghost use Rattle.py_forms.specs.Roles.{role_of_name, operator_or_other, role_of_kind, role_of, roles_of, back_of};

use py_lexer::{Kind, Token, Value};

/// What a token is to the forms, by its kind; names by their spelling.
#[derive(Clone, Copy, Debug, PartialEq, Eq)]
pub enum Role {
    /// A name other than those of the next two.
    Name,
    /// The name `super`.
    Super,
    /// The name `__init__`.
    Init,
    /// A whole number, `True`, `False`, `None` or `...`.
    Literal,
    /// A string that isn't formatted.
    Text,
    Float,
    Bytes,
    FStringStart,
    FieldOpen,
    FieldClose,
    FStringEnd,
    LeftParen,
    RightParen,
    LeftBracket,
    RightBracket,
    LeftBrace,
    RightBrace,
    Comma,
    Colon,
    Equal,
    ColonEqual,
    Dot,
    Star,
    DoubleStar,
    Not,
    If,
    Else,
    /// Any other operator, a comparison, `and` or `or`.
    Operator,
    Await,
    Lambda,
    Yield,
    For,
    Async,
    /// What stands in no expression, or says nothing of the forms.
    Other,
}

/// The role of a name.
fn role_of_name(name: &str) -> Role
    ensures { result ≡ role_of_name name.now }
{
    match name {
        "super" => Role::Super,
        "__init__" => Role::Init,
        _ => Role::Name,
    }
}

/// The role of a kind; of a name, where it has no spelling of its own.
fn role_of_kind(kind: Kind) -> Role
    ensures { result ≡ role_of_kind kind }
{
    match kind {
        Kind::Name => Role::Name,
        Kind::Number | Kind::False | Kind::None | Kind::True | Kind::Ellipsis => Role::Literal,
        Kind::Text => Role::Text,
        Kind::Float => Role::Float,
        Kind::Bytes => Role::Bytes,
        Kind::FStringStart => Role::FStringStart,
        Kind::FieldOpen => Role::FieldOpen,
        Kind::FieldClose => Role::FieldClose,
        Kind::FStringEnd => Role::FStringEnd,
        Kind::LeftParen => Role::LeftParen,
        Kind::RightParen => Role::RightParen,
        Kind::LeftBracket => Role::LeftBracket,
        Kind::RightBracket => Role::RightBracket,
        Kind::LeftBrace => Role::LeftBrace,
        Kind::RightBrace => Role::RightBrace,
        Kind::Comma => Role::Comma,
        Kind::Colon => Role::Colon,
        Kind::Equal => Role::Equal,
        Kind::ColonEqual => Role::ColonEqual,
        Kind::Dot => Role::Dot,
        Kind::Star => Role::Star,
        Kind::DoubleStar => Role::DoubleStar,
        Kind::Not => Role::Not,
        Kind::If => Role::If,
        Kind::Else => Role::Else,
        Kind::Await => Role::Await,
        Kind::Lambda => Role::Lambda,
        Kind::Yield => Role::Yield,
        Kind::For => Role::For,
        Kind::Async => Role::Async,
        _ => operator_or_other(kind),
    }
}

/// The role of an operator, or of what has none.
fn operator_or_other(kind: Kind) -> Role
    ensures { result ≡ operator_or_other kind }
{
    match kind {
        Kind::And
        | Kind::Or
        | Kind::In
        | Kind::Is
        | Kind::Plus
        | Kind::Minus
        | Kind::Slash
        | Kind::DoubleSlash
        | Kind::Percent
        | Kind::At
        | Kind::LeftShift
        | Kind::RightShift
        | Kind::Ampersand
        | Kind::Bar
        | Kind::Caret
        | Kind::Tilde
        | Kind::Less
        | Kind::Greater
        | Kind::LessEqual
        | Kind::GreaterEqual
        | Kind::DoubleEqual
        | Kind::NotEqual => Role::Operator,
        _ => Role::Other,
    }
}

/// The role of a token.
#[tactic(auto, unfolding(crate::specs::Roles::role_of))]
pub fn role_of(token: &Token) -> Role
    ensures { result ≡ role_of token.now }
{
    match &token.value {
        Value::Name(name) => match token.kind {
            Kind::Name => role_of_name(name.as_str()),
            kind => role_of_kind(kind),
        },
        _ => role_of_kind(token.kind),
    }
}

/// The role of the last token of a run, and what stands before it.
#[tactic(auto, using(crate::proofs::Backward::back_of_none, crate::proofs::Backward::back_of_split))]
pub fn last_role(run: &[Token]) -> Option<(Role, &[Token])>
    ensures roles { MatchOption result (back_of run.now ≡ []) (λ p. back_of run.now ≡ p.0 ∷ back_of p.1.now) }
    ensures shorter { IfSome result (λ p. length p.1.now + 1 ≡ length run.now) }
{
    match run.split_last() {
        None => None,
        Some((last, before)) => Some((role_of(last), before)),
    }
}

/// The role of the first token, and what follows it.
#[tactic(auto, using(crate::proofs::Backward::roles_of_none, crate::proofs::Backward::roles_of_split))]
pub fn first_role(tokens: &[Token]) -> Option<(Role, &[Token])>
    ensures roles { MatchOption result (roles_of tokens.now ≡ []) (λ p. roles_of tokens.now ≡ p.0 ∷ roles_of p.1.now) }
    ensures shorter { IfSome result (λ p. length p.1.now + 1 ≡ length tokens.now) }
{
    match tokens.split_first() {
        None => None,
        Some((first, after)) => Some((role_of(first), after)),
    }
}
