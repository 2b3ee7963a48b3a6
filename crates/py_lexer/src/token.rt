//! Tokens, and why a text has none.

ghost use Rattle.std.specs.Prelude.{◌≡◌};
ghost use Rattle.py_lexer.specs.Faults.{fault_name};

use py_literals::place::Pos;
use rv_names::{Memory, Name, Text};
use std::alloc::{AllocError, AllocFailed};
use std::error::Error;
use std::fmt;

/// What a token is (Language Reference, chapter 2): the layout of lines, names and literals, the parts of a formatted
/// string, the keywords, and the operators and delimiters.
#[derive(Clone, Copy, Debug, PartialEq, Eq)]
pub enum Kind {
    /// The end of a logical line.
    Newline,
    /// A block begins.
    Indent,
    /// A block ends.
    Dedent,
    /// An identifier that is no keyword; its value is a `Value::Name`.
    Name,
    /// A whole number; its value is a `Value::Whole`.
    Number,
    /// A floating point or imaginary number.
    Float,
    /// A string that isn't formatted; its value is a `Value::Text`.
    Text,
    /// A bytes literal.
    Bytes,
    /// The prefix and the opening quotes of a formatted string.
    FStringStart,
    /// A text between the fields of a formatted string; its value is a `Value::Text`.
    FStringText,
    /// The `{` of a field.
    FieldOpen,
    /// The `}` of a field.
    FieldClose,
    /// The closing quotes of a formatted string.
    FStringEnd,

    // The keywords (2.3.1), which are named as they are spelled.
    False,
    None,
    True,
    And,
    As,
    Assert,
    Async,
    Await,
    Break,
    Class,
    Continue,
    Def,
    Del,
    Elif,
    Else,
    Except,
    Finally,
    For,
    From,
    Global,
    If,
    Import,
    In,
    Is,
    Lambda,
    Nonlocal,
    Not,
    Or,
    Pass,
    Raise,
    Return,
    Try,
    While,
    With,
    Yield,

    // The operators and delimiters (2.5 and 2.6).
    Plus,
    Minus,
    Star,
    DoubleStar,
    Slash,
    DoubleSlash,
    Percent,
    At,
    LeftShift,
    RightShift,
    Ampersand,
    Bar,
    Caret,
    Tilde,
    ColonEqual,
    Less,
    Greater,
    LessEqual,
    GreaterEqual,
    DoubleEqual,
    NotEqual,
    LeftParen,
    RightParen,
    LeftBracket,
    RightBracket,
    LeftBrace,
    RightBrace,
    Comma,
    Colon,
    Dot,
    Semicolon,
    Equal,
    Arrow,
    PlusEqual,
    MinusEqual,
    StarEqual,
    SlashEqual,
    DoubleSlashEqual,
    PercentEqual,
    AtEqual,
    AmpersandEqual,
    BarEqual,
    CaretEqual,
    RightShiftEqual,
    LeftShiftEqual,
    DoubleStarEqual,
    Ellipsis,
}

/// What a token stands for, beyond its kind.
#[derive(Debug, Drop)]
pub enum Value {
    /// Its kind says all.
    Nothing,
    /// The identifier.
    Name(Name),
    /// What the literal's characters and escapes stand for.
    Text(Text),
    /// The number, which is at most 2^127 - 1.
    Whole(i128),
}

/// A token, and the place of its first character.
///
/// An INDENT or DEDENT stands at the first token of its line, the DEDENTs of the blocks that are open at the end of the
/// text stand there, and a NEWLINE stands at its line end, or at the end of a text whose last line has none.
#[derive(Debug, Drop)]
pub struct Token {
    pub kind: Kind,
    pub value: Value,
    pub at: Pos,
}

/// Why a text has no tokens.
#[derive(Clone, Copy, Debug, PartialEq, Eq)]
pub enum LexKind {
    /// A character that begins no token.
    BadChar,
    /// Leading white space of another kind than that seen before: tabs among spaces, or spaces among tabs.
    MixedIndent,
    /// A line's first token behind less white space than its block's, and as much as no block's round it.
    BadDedent,
    /// The opening quote of a string without an end.
    OpenString,
    /// The innermost bracket that is open where the text ends.
    OpenBracket,
    /// The backslash of an escape that stands for nothing.
    BadEscape,
    /// A number that goes on with a character of names.
    BadNumber,
    /// A whole number above 2^127 - 1.
    WideNumber,
    /// An identifier that isn't in NFKC.
    NotNormal,
    /// The opening quote of a formatted string of another form than this subset's.
    FStringForm,
}

impl LexKind {
    /// Its name, as faults print it.
    pub fn name(self) -> &'static str
        ensures { result.now ≡ fault_name self }
    {
        match self {
            LexKind::BadChar => "BadChar",
            LexKind::MixedIndent => "MixedIndent",
            LexKind::BadDedent => "BadDedent",
            LexKind::OpenString => "OpenString",
            LexKind::OpenBracket => "OpenBracket",
            LexKind::BadEscape => "BadEscape",
            LexKind::BadNumber => "BadNumber",
            LexKind::WideNumber => "WideNumber",
            LexKind::NotNormal => "NotNormal",
            LexKind::FStringForm => "FStringForm",
        }
    }
}

impl fmt::Display for LexKind {
    ghost use Rattle.std.specs.Prelude.{Some};
    ghost use Rattle.py_lexer.specs.Faults.{fault_name};

    ghost output = { λ kind. Some (fault_name kind) };

    fn fmt<W: fmt::Write>(&self, f: &mut fmt::Formatter<W>) -> fmt::Result {
        f.pad(self.name())
    }
}

/// Why a text gave no tokens.
#[derive(Clone, Copy, Debug, PartialEq, Eq)]
pub enum LexError {
    /// The text's one fault, and its place.
    Fault { kind: LexKind, at: Pos },
    /// There is no memory left for the answer.
    Memory,
}

impl fmt::Display for LexError {
    fn fmt<W: fmt::Write>(&self, f: &mut fmt::Formatter<W>) -> fmt::Result {
        match self {
            LexError::Fault { kind, at } => write!(f, "{}:{}: {kind}", at.line, at.col),
            LexError::Memory => f.write_str("out of memory"),
        }
    }
}

impl Error for LexError {}

impl From<AllocError> for LexError {
    ghost use Rattle.std.specs.Prelude.{◌≡◌};
    ghost use Rattle.py_lexer.specs.declared.token.LexError.TheVariants.{Memory};

    ghost from_gives = { λ _ error. error ≡ Memory };

    fn from(_error: AllocError) -> LexError {
        LexError::Memory
    }
}

impl<T: Drop> From<AllocFailed<T>> for LexError {
    ghost use Rattle.std.specs.Prelude.{◌≡◌};
    ghost use Rattle.py_lexer.specs.declared.token.LexError.TheVariants.{Memory};

    ghost from_gives = { λ _ error. error ≡ Memory };

    fn from(_error: AllocFailed<T>) -> LexError {
        LexError::Memory
    }
}

impl From<Memory> for LexError {
    ghost use Rattle.std.specs.Prelude.{◌≡◌};
    ghost use Rattle.py_lexer.specs.declared.token.LexError.TheVariants.{Memory};

    ghost from_gives = { λ _ error. error ≡ Memory };

    fn from(_error: Memory) -> LexError {
        LexError::Memory
    }
}
