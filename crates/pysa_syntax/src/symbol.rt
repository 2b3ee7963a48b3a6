//! What the grammar of model files sees of a token: its terminal symbol.

ghost use Rattle.std.specs.Prelude.{◌≡◌};
ghost use Rattle.phrases.specs.Sets.{has, starts};
ghost use Rattle.pysa_syntax.specs.Symbols.{class, code, symbol, word, word_in, only, names, sides, param_first, model_first};

use py_lexer::{Kind, Token, Value};

/// A terminal symbol. Five are names that the grammar tells by their texts.
#[derive(Clone, Copy, Debug, PartialEq, Eq)]
pub enum Symbol {
    /// A name of any other text.
    Name,
    TaintSource,
    TaintSink,
    TaintInTaintOut,
    Union,
    SkipObscure,
    Def,
    At,
    Star,
    DoubleStar,
    Slash,
    LeftParen,
    RightParen,
    LeftBracket,
    RightBracket,
    Comma,
    Colon,
    Dot,
    Equal,
    Arrow,
    Ellipsis,
    Newline,
    /// A token that stands in no model.
    Other,
}

/// Its number.
pub fn code(symbol: Symbol) -> u8
    ensures { result ≡ code symbol }
{
    match symbol {
        Symbol::Name => 0,
        Symbol::TaintSource => 1,
        Symbol::TaintSink => 2,
        Symbol::TaintInTaintOut => 3,
        Symbol::Union => 4,
        Symbol::SkipObscure => 5,
        Symbol::Def => 6,
        Symbol::At => 7,
        Symbol::Star => 8,
        Symbol::DoubleStar => 9,
        Symbol::Slash => 10,
        Symbol::LeftParen => 11,
        Symbol::RightParen => 12,
        Symbol::LeftBracket => 13,
        Symbol::RightBracket => 14,
        Symbol::Comma => 15,
        Symbol::Colon => 16,
        Symbol::Dot => 17,
        Symbol::Equal => 18,
        Symbol::Arrow => 19,
        Symbol::Ellipsis => 20,
        Symbol::Newline => 21,
        Symbol::Other => 22,
    }
}

/// The symbol of a name of this text.
fn word_of(text: &str) -> Symbol
    ensures { result ≡ word text.now }
{
    match text {
        "TaintSource" => Symbol::TaintSource,
        "TaintSink" => Symbol::TaintSink,
        "TaintInTaintOut" => Symbol::TaintInTaintOut,
        "Union" => Symbol::Union,
        "SkipObscure" => Symbol::SkipObscure,
        _ => Symbol::Name,
    }
}

/// The symbol of a token whose kind says that it is a name, with this value.
fn word_in(value: &Value) -> Symbol
    ensures { result ≡ word_in value.now }
{
    match value {
        Value::Name(name) => word_of(name.as_str()),
        _ => Symbol::Other,
    }
}

/// The symbol of a token.
#[tactic(auto, unfolding(crate::specs::Symbols::symbol))]
pub fn symbol_of(token: &Token) -> Symbol
    ensures { result ≡ symbol token.now }
{
    match token.kind {
        Kind::Name => word_in(&token.value),
        Kind::Def => Symbol::Def,
        Kind::At => Symbol::At,
        Kind::Star => Symbol::Star,
        Kind::DoubleStar => Symbol::DoubleStar,
        Kind::Slash => Symbol::Slash,
        Kind::LeftParen => Symbol::LeftParen,
        Kind::RightParen => Symbol::RightParen,
        Kind::LeftBracket => Symbol::LeftBracket,
        Kind::RightBracket => Symbol::RightBracket,
        Kind::Comma => Symbol::Comma,
        Kind::Colon => Symbol::Colon,
        Kind::Dot => Symbol::Dot,
        Kind::Equal => Symbol::Equal,
        Kind::Arrow => Symbol::Arrow,
        Kind::Ellipsis => Symbol::Ellipsis,
        Kind::Newline => Symbol::Newline,
        _ => Symbol::Other,
    }
}

/// Whether the token is of this symbol.
pub fn is(token: &Token, symbol: Symbol) -> bool
    ensures { result ≡ has (only symbol) (class token.now) }
{
    code(symbol) == code(symbol_of(token))
}

/// Whether the token is a name of any text.
pub fn is_name(token: &Token) -> bool
    ensures { result ≡ has names (class token.now) }
{
    matches!(
        symbol_of(token),
        Symbol::Name
            | Symbol::TaintSource
            | Symbol::TaintSink
            | Symbol::TaintInTaintOut
            | Symbol::Union
            | Symbol::SkipObscure
    )
}

/// Whether the token is a name that kinds in brackets follow.
pub fn is_side(token: &Token) -> bool
    ensures { result ≡ has sides (class token.now) }
{
    matches!(symbol_of(token), Symbol::TaintSource | Symbol::TaintSink)
}

/// Whether a parameter begins with the token.
pub fn begins_param(token: &Token) -> bool
    ensures { result ≡ has param_first (class token.now) }
{
    matches!(
        symbol_of(token),
        Symbol::Name
            | Symbol::TaintSource
            | Symbol::TaintSink
            | Symbol::TaintInTaintOut
            | Symbol::Union
            | Symbol::SkipObscure
            | Symbol::Star
            | Symbol::DoubleStar
            | Symbol::Slash
    )
}

/// Whether a model begins with the token.
pub fn begins_model(token: &Token) -> bool
    ensures { result ≡ has model_first (class token.now) }
{
    matches!(
        symbol_of(token),
        Symbol::At
            | Symbol::Def
            | Symbol::Name
            | Symbol::TaintSource
            | Symbol::TaintSink
            | Symbol::TaintInTaintOut
            | Symbol::Union
            | Symbol::SkipObscure
    )
}

/// Whether a token of this symbol stands at the front.
pub fn starts_with(tokens: &[Token], symbol: Symbol) -> bool
    ensures { result ≡ starts class (only symbol) tokens.now }
{
    match tokens {
        [first, ..] => is(first, symbol),
        [] => false,
    }
}

/// Whether a name of any text stands at the front.
pub fn starts_with_name(tokens: &[Token]) -> bool
    ensures { result ≡ starts class names tokens.now }
{
    match tokens {
        [first, ..] => is_name(first),
        [] => false,
    }
}
