//! Operators and delimiters.

ghost use Rattle.std.specs.Prelude.{◌≡◌};
ghost use Rattle.py_lexer.specs.Operators.{sign, kind_or_newline, before_equal, doubled, doubled_before_equal, two_signs, three_signs, operator_or, longest_operator, may_go_on};

use crate::token::Kind;

/// An operator, and how many characters it has.
#[derive(Clone, Copy, Debug, PartialEq, Eq)]
pub struct Operator {
    pub len: usize,
    pub kind: Kind,
}

/// The operator of one character.
pub fn sign(c: char) -> Option<Kind>
    ensures { result ≡ sign c }
{
    match c {
        '(' => Some(Kind::LeftParen),
        ')' => Some(Kind::RightParen),
        '[' => Some(Kind::LeftBracket),
        ']' => Some(Kind::RightBracket),
        '{' => Some(Kind::LeftBrace),
        '}' => Some(Kind::RightBrace),
        ',' => Some(Kind::Comma),
        ':' => Some(Kind::Colon),
        '.' => Some(Kind::Dot),
        ';' => Some(Kind::Semicolon),
        '=' => Some(Kind::Equal),
        '+' => Some(Kind::Plus),
        '-' => Some(Kind::Minus),
        '*' => Some(Kind::Star),
        '/' => Some(Kind::Slash),
        '%' => Some(Kind::Percent),
        '@' => Some(Kind::At),
        '&' => Some(Kind::Ampersand),
        '|' => Some(Kind::Bar),
        '^' => Some(Kind::Caret),
        '~' => Some(Kind::Tilde),
        '<' => Some(Kind::Less),
        '>' => Some(Kind::Greater),
        _ => None,
    }
}

/// The kinds of the operators of one character, by that character, and in the place of none that of a line end.
static SIGNS: [Kind; 128] = [
    Kind::Newline,
    Kind::Newline,
    Kind::Newline,
    Kind::Newline,
    Kind::Newline,
    Kind::Newline,
    Kind::Newline,
    Kind::Newline,
    Kind::Newline,
    Kind::Newline,
    Kind::Newline,
    Kind::Newline,
    Kind::Newline,
    Kind::Newline,
    Kind::Newline,
    Kind::Newline,
    Kind::Newline,
    Kind::Newline,
    Kind::Newline,
    Kind::Newline,
    Kind::Newline,
    Kind::Newline,
    Kind::Newline,
    Kind::Newline,
    Kind::Newline,
    Kind::Newline,
    Kind::Newline,
    Kind::Newline,
    Kind::Newline,
    Kind::Newline,
    Kind::Newline,
    Kind::Newline,
    Kind::Newline,
    Kind::Newline,
    Kind::Newline,
    Kind::Newline,
    Kind::Newline,
    Kind::Percent,
    Kind::Ampersand,
    Kind::Newline,
    Kind::LeftParen,
    Kind::RightParen,
    Kind::Star,
    Kind::Plus,
    Kind::Comma,
    Kind::Minus,
    Kind::Dot,
    Kind::Slash,
    Kind::Newline,
    Kind::Newline,
    Kind::Newline,
    Kind::Newline,
    Kind::Newline,
    Kind::Newline,
    Kind::Newline,
    Kind::Newline,
    Kind::Newline,
    Kind::Newline,
    Kind::Colon,
    Kind::Semicolon,
    Kind::Less,
    Kind::Equal,
    Kind::Greater,
    Kind::Newline,
    Kind::At,
    Kind::Newline,
    Kind::Newline,
    Kind::Newline,
    Kind::Newline,
    Kind::Newline,
    Kind::Newline,
    Kind::Newline,
    Kind::Newline,
    Kind::Newline,
    Kind::Newline,
    Kind::Newline,
    Kind::Newline,
    Kind::Newline,
    Kind::Newline,
    Kind::Newline,
    Kind::Newline,
    Kind::Newline,
    Kind::Newline,
    Kind::Newline,
    Kind::Newline,
    Kind::Newline,
    Kind::Newline,
    Kind::Newline,
    Kind::Newline,
    Kind::Newline,
    Kind::Newline,
    Kind::LeftBracket,
    Kind::Newline,
    Kind::RightBracket,
    Kind::Caret,
    Kind::Newline,
    Kind::Newline,
    Kind::Newline,
    Kind::Newline,
    Kind::Newline,
    Kind::Newline,
    Kind::Newline,
    Kind::Newline,
    Kind::Newline,
    Kind::Newline,
    Kind::Newline,
    Kind::Newline,
    Kind::Newline,
    Kind::Newline,
    Kind::Newline,
    Kind::Newline,
    Kind::Newline,
    Kind::Newline,
    Kind::Newline,
    Kind::Newline,
    Kind::Newline,
    Kind::Newline,
    Kind::Newline,
    Kind::Newline,
    Kind::Newline,
    Kind::Newline,
    Kind::Newline,
    Kind::Newline,
    Kind::LeftBrace,
    Kind::Bar,
    Kind::RightBrace,
    Kind::Tilde,
    Kind::Newline,
];

/// The kind of the operator of one character, or that of a line end where the character is none.
#[inline(always)]
pub fn sign_kind(c: char) -> Kind
    ensures { result ≡ kind_or_newline (sign c) }
{
    if (c as u32) < 128 {
        SIGNS[c as usize]
    } else {
        Kind::Newline
    }
}

/// The operator of this character and `=`.
fn before_equal(c: char) -> Option<Kind>
    ensures { result ≡ before_equal c }
{
    match c {
        '=' => Some(Kind::DoubleEqual),
        '!' => Some(Kind::NotEqual),
        '<' => Some(Kind::LessEqual),
        '>' => Some(Kind::GreaterEqual),
        ':' => Some(Kind::ColonEqual),
        '+' => Some(Kind::PlusEqual),
        '-' => Some(Kind::MinusEqual),
        '*' => Some(Kind::StarEqual),
        '/' => Some(Kind::SlashEqual),
        '%' => Some(Kind::PercentEqual),
        '@' => Some(Kind::AtEqual),
        '&' => Some(Kind::AmpersandEqual),
        '|' => Some(Kind::BarEqual),
        '^' => Some(Kind::CaretEqual),
        _ => None,
    }
}

/// The operator of this character twice.
fn doubled(c: char) -> Option<Kind>
    ensures { result ≡ doubled c }
{
    match c {
        '*' => Some(Kind::DoubleStar),
        '/' => Some(Kind::DoubleSlash),
        '<' => Some(Kind::LeftShift),
        '>' => Some(Kind::RightShift),
        _ => None,
    }
}

/// The operator of this character twice and `=`.
fn doubled_before_equal(c: char) -> Option<Kind>
    ensures { result ≡ doubled_before_equal c }
{
    match c {
        '*' => Some(Kind::DoubleStarEqual),
        '/' => Some(Kind::DoubleSlashEqual),
        '<' => Some(Kind::LeftShiftEqual),
        '>' => Some(Kind::RightShiftEqual),
        _ => None,
    }
}

fn two_signs(a: char, b: char) -> Option<Kind>
    ensures { result ≡ two_signs a b }
{
    if b == '=' {
        before_equal(a)
    } else if a == b {
        doubled(a)
    } else if a == '-' && b == '>' {
        Some(Kind::Arrow)
    } else {
        None
    }
}

fn three_signs(a: char, b: char, c: char) -> Option<Kind>
    ensures { result ≡ three_signs a b c }
{
    if a != b {
        None
    } else if c == '=' {
        doubled_before_equal(a)
    } else if a == '.' && c == '.' {
        Some(Kind::Ellipsis)
    } else {
        None
    }
}

fn operator_or(len: usize, kind: Option<Kind>, other: Option<Operator>) -> Option<Operator>
    ensures { result ≡ operator_or len kind other }
{
    match kind {
        Some(kind) => Some(Operator { len, kind }),
        None => other,
    }
}

/// Whether an operator of several characters may go on with this one.
pub fn may_go_on(second: char) -> bool
    ensures { result ≡ may_go_on second }
{
    matches!(second, '=' | '*' | '/' | '<' | '>' | '.')
}

/// The longest operator or delimiter at the front (Language Reference, 2.5 and 2.6).
///
/// Most are told from longer ones by the character behind them.
pub fn longest_operator(chars: &[char]) -> Option<Operator>
    ensures { result ≡ longest_operator chars.now }
{
    match chars {
        [] => None,
        [a] => operator_or(1, sign(*a), None),
        [a, b] => operator_or(2, two_signs(*a, *b), operator_or(1, sign(*a), None)),
        [a, b, c, ..] => {
            let one = operator_or(1, sign(*a), None);
            if may_go_on(*b) {
                operator_or(
                    3,
                    three_signs(*a, *b, *c),
                    operator_or(2, two_signs(*a, *b), one),
                )
            } else {
                one
            }
        }
    }
}
