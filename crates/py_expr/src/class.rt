//! The classes of tokens: what one token of lookahead tells.
//!
//! `py_ast` defines them as numbers, so that sets of them are told apart by computing. Here each has its name, and its number is made of its
//! kind: no number of a class stands anywhere else in code, and in no clause.

ghost use Rattle.std.specs.Prelude.{◌≡◌, ◌<◌, ◌∷◌, [], ℕ, true, false};
ghost use Rattle.phrases.specs.Sets.{has};
ghost use Rattle.py_ast.specs.Kinds.{name_class, number_class, text_class, part_text_class, class, code};
ghost use Rattle.py_ast.specs.Tokens.{leaf_codes, unary_codes, level_codes, comparator_codes, name_codes};
ghost use Rattle.py_ast.specs.Grammar.{string_first, atom_first, factor_first, expr_first, part_first, step_first, comparison_first, argument_first};

use py_lexer::{Kind, Token, Value};

/// No class: a token without the value that its kind asks for, and a kind whose tokens have their class by their value.
const NONE_OF_THEM: u8 = 0;

/// The classes of kinds follow the kinds, from this number on.
const FIRST: u8 = 2;

/// A name but `super`.
pub const NAME: u8 = 1;

/// The name `super`.
pub const SUPER: u8 = 2;

/// A whole number.
pub const NUMBER: u8 = 3;

/// A string that isn't formatted.
pub const TEXT: u8 = 4;

/// The end of a logical line.
pub const NEWLINE: u8 = 5;

/// The beginning of an indented block.
pub const INDENT: u8 = NEWLINE + Kind::Indent as u8;

/// The end of an indented block.
pub const DEDENT: u8 = NEWLINE + Kind::Dedent as u8;

/// A floating point or imaginary number.
const FLOAT: u8 = 8;

pub const F_STRING_START: u8 = Kind::FStringStart as u8 + FIRST;

/// A text between the fields of a formatted string.
pub const F_STRING_TEXT: u8 = Kind::FStringText as u8 + FIRST;

pub const FIELD_OPEN: u8 = Kind::FieldOpen as u8 + FIRST;

pub const FIELD_CLOSE: u8 = Kind::FieldClose as u8 + FIRST;

pub const F_STRING_END: u8 = Kind::FStringEnd as u8 + FIRST;

pub const FALSE: u8 = Kind::False as u8 + FIRST;

pub const NONE: u8 = Kind::None as u8 + FIRST;

pub const TRUE: u8 = Kind::True as u8 + FIRST;

pub const AND: u8 = Kind::And as u8 + FIRST;

pub const AS: u8 = Kind::As as u8 + FIRST;

pub const ASSERT: u8 = Kind::Assert as u8 + FIRST;

pub const BREAK: u8 = Kind::Break as u8 + FIRST;

pub const CLASS: u8 = Kind::Class as u8 + FIRST;

pub const CONTINUE: u8 = Kind::Continue as u8 + FIRST;

pub const DEF: u8 = Kind::Def as u8 + FIRST;

pub const ELIF: u8 = Kind::Elif as u8 + FIRST;

pub const ELSE: u8 = Kind::Else as u8 + FIRST;

pub const FOR: u8 = Kind::For as u8 + FIRST;

pub const FROM: u8 = Kind::From as u8 + FIRST;

pub const IF: u8 = Kind::If as u8 + FIRST;

pub const IMPORT: u8 = Kind::Import as u8 + FIRST;

pub const IN: u8 = Kind::In as u8 + FIRST;

pub const IS: u8 = Kind::Is as u8 + FIRST;

pub const NOT: u8 = Kind::Not as u8 + FIRST;

pub const OR: u8 = Kind::Or as u8 + FIRST;

pub const PASS: u8 = Kind::Pass as u8 + FIRST;

pub const RETURN: u8 = Kind::Return as u8 + FIRST;

pub const WHILE: u8 = Kind::While as u8 + FIRST;

pub const PLUS: u8 = Kind::Plus as u8 + FIRST;

pub const MINUS: u8 = Kind::Minus as u8 + FIRST;

pub const STAR: u8 = Kind::Star as u8 + FIRST;

pub const DOUBLE_STAR: u8 = Kind::DoubleStar as u8 + FIRST;

pub const SLASH: u8 = Kind::Slash as u8 + FIRST;

pub const DOUBLE_SLASH: u8 = Kind::DoubleSlash as u8 + FIRST;

pub const PERCENT: u8 = Kind::Percent as u8 + FIRST;

pub const AT: u8 = Kind::At as u8 + FIRST;

pub const LEFT_SHIFT: u8 = Kind::LeftShift as u8 + FIRST;

pub const RIGHT_SHIFT: u8 = Kind::RightShift as u8 + FIRST;

pub const AMPERSAND: u8 = Kind::Ampersand as u8 + FIRST;

pub const BAR: u8 = Kind::Bar as u8 + FIRST;

pub const CARET: u8 = Kind::Caret as u8 + FIRST;

pub const TILDE: u8 = Kind::Tilde as u8 + FIRST;

pub const LESS: u8 = Kind::Less as u8 + FIRST;

pub const GREATER: u8 = Kind::Greater as u8 + FIRST;

pub const LESS_EQUAL: u8 = Kind::LessEqual as u8 + FIRST;

pub const GREATER_EQUAL: u8 = Kind::GreaterEqual as u8 + FIRST;

pub const DOUBLE_EQUAL: u8 = Kind::DoubleEqual as u8 + FIRST;

pub const NOT_EQUAL: u8 = Kind::NotEqual as u8 + FIRST;

pub const LEFT_PAREN: u8 = Kind::LeftParen as u8 + FIRST;

pub const RIGHT_PAREN: u8 = Kind::RightParen as u8 + FIRST;

pub const LEFT_BRACKET: u8 = Kind::LeftBracket as u8 + FIRST;

pub const RIGHT_BRACKET: u8 = Kind::RightBracket as u8 + FIRST;

pub const LEFT_BRACE: u8 = Kind::LeftBrace as u8 + FIRST;

pub const RIGHT_BRACE: u8 = Kind::RightBrace as u8 + FIRST;

pub const COMMA: u8 = Kind::Comma as u8 + FIRST;

pub const COLON: u8 = Kind::Colon as u8 + FIRST;

pub const DOT: u8 = Kind::Dot as u8 + FIRST;

pub const SEMICOLON: u8 = Kind::Semicolon as u8 + FIRST;

pub const EQUAL: u8 = Kind::Equal as u8 + FIRST;

pub const ARROW: u8 = Kind::Arrow as u8 + FIRST;

pub const PLUS_EQUAL: u8 = Kind::PlusEqual as u8 + FIRST;

pub const MINUS_EQUAL: u8 = Kind::MinusEqual as u8 + FIRST;

pub const STAR_EQUAL: u8 = Kind::StarEqual as u8 + FIRST;

pub const SLASH_EQUAL: u8 = Kind::SlashEqual as u8 + FIRST;

pub const DOUBLE_SLASH_EQUAL: u8 = Kind::DoubleSlashEqual as u8 + FIRST;

pub const PERCENT_EQUAL: u8 = Kind::PercentEqual as u8 + FIRST;

pub const AT_EQUAL: u8 = Kind::AtEqual as u8 + FIRST;

pub const AMPERSAND_EQUAL: u8 = Kind::AmpersandEqual as u8 + FIRST;

pub const BAR_EQUAL: u8 = Kind::BarEqual as u8 + FIRST;

pub const CARET_EQUAL: u8 = Kind::CaretEqual as u8 + FIRST;

pub const RIGHT_SHIFT_EQUAL: u8 = Kind::RightShiftEqual as u8 + FIRST;

pub const LEFT_SHIFT_EQUAL: u8 = Kind::LeftShiftEqual as u8 + FIRST;

pub const DOUBLE_STAR_EQUAL: u8 = Kind::DoubleStarEqual as u8 + FIRST;

pub const ELLIPSIS: u8 = Kind::Ellipsis as u8 + FIRST;

/// `super` is asked for by its length first, which most names don't have.
#[tactic(auto, using(crate::proofs::Marks::other_length))]
fn name_class(value: &Value) -> u8
    ensures { result ≡ name_class value.now }
{
    match value {
        Value::Name(name) => {
            let text = name.as_str();
            if text.len() == 5 && text == "super" {
                SUPER
            } else {
                NAME
            }
        }
        _ => NONE_OF_THEM,
    }
}

fn number_class(value: &Value) -> u8
    ensures { result ≡ number_class value.now }
{
    match value {
        Value::Whole(_) => NUMBER,
        _ => NONE_OF_THEM,
    }
}

fn text_class(value: &Value) -> u8
    ensures { result ≡ text_class value.now }
{
    match value {
        Value::Text(_) => TEXT,
        _ => NONE_OF_THEM,
    }
}

fn part_text_class(value: &Value) -> u8
    ensures { result ≡ part_text_class value.now }
{
    match value {
        Value::Text(_) => F_STRING_TEXT,
        _ => NONE_OF_THEM,
    }
}

/// The class of a token of this kind where the kind alone makes it, and else `NONE_OF_THEM`.
#[inline(always)]
pub fn code_of(kind: Kind) -> u8
    ensures { result ≡ code kind }
{
    match kind {
        Kind::Name | Kind::Number | Kind::Text | Kind::FStringText => NONE_OF_THEM,
        Kind::Newline | Kind::Indent | Kind::Dedent => NEWLINE + kind as u8,
        Kind::Float => FLOAT,
        _ => kind as u8 + FIRST,
    }
}

/// The class of a token whose value has a part in it.
fn value_class(token: &Token) -> u8
    requires { code token.now.kind ≡ 0 }
    ensures { result ≡ class token.now }
{
    match token.kind {
        Kind::Name => name_class(&token.value),
        Kind::Number => number_class(&token.value),
        Kind::Text => text_class(&token.value),
        Kind::FStringText => part_text_class(&token.value),
        _ => 0,
    }
}

/// The class of a token. Names and texts, which are most tokens whose value has a part in it, are told first.
#[inline(always)]
#[tactic(auto, using(crate::proofs::Marks::class_is))]
pub fn class_of(token: &Token) -> u8
    ensures { result ≡ class token.now }
{
    match token.kind {
        Kind::Name => name_class(&token.value),
        Kind::Text => text_class(&token.value),
        _ => other_class(token),
    }
}

/// The class of a token, whatever its kind.
#[tactic(auto, using(crate::proofs::Marks::class_is))]
fn other_class(token: &Token) -> u8
    ensures { result ≡ class token.now }
{
    let own = code_of(token.kind);
    if own == 0 { value_class(token) } else { own }
}

/// Whether the token is a name, `super` among them. The name itself isn't looked at.
#[inline(always)]
pub fn is_name(token: &Token) -> bool
    ensures { result ≡ has name_codes (class token.now) }
{
    match token.kind {
        Kind::Name => matches!(token.value, Value::Name(_)),
        _ => false,
    }
}

/// Whether the token is the name `super`.
#[inline(always)]
pub fn is_super(token: &Token) -> bool
    ensures { result ≡ has (SUPER ∷ []) (class token.now) }
{
    match token.kind {
        Kind::Name => name_class(&token.value) == SUPER,
        _ => false,
    }
}

/// Whether the token is a text.
#[inline(always)]
pub fn is_text(token: &Token) -> bool
    ensures { result ≡ has (TEXT ∷ []) (class token.now) }
{
    match token.kind {
        Kind::Text => matches!(token.value, Value::Text(_)),
        _ => false,
    }
}

/// Whether the class is that of an atom of one token.
pub fn begins_leaf(class: u8) -> bool
    ensures { result ≡ has leaf_codes class }
{
    class == NAME
        || class == NUMBER
        || class == FALSE
        || class == NONE
        || class == TRUE
        || class == ELLIPSIS
}

/// Whether the class begins a string.
pub fn begins_string(class: u8) -> bool
    ensures { result ≡ has string_first class }
{
    class == TEXT || class == F_STRING_START
}

/// Whether the class begins a part of a formatted string.
pub fn begins_part(class: u8) -> bool
    ensures { result ≡ has part_first class }
{
    class == F_STRING_TEXT || class == FIELD_OPEN
}

/// Whether the class begins an atom.
pub fn begins_atom(class: u8) -> bool
    ensures { result ≡ has atom_first class }
{
    begins_leaf(class)
        || begins_string(class)
        || class == LEFT_PAREN
        || class == LEFT_BRACKET
        || class == LEFT_BRACE
}

/// Whether the class is that of a unary operator.
pub fn begins_unary(class: u8) -> bool
    ensures { result ≡ has unary_codes class }
{
    class == PLUS || class == MINUS || class == TILDE
}

/// Whether the class begins a factor.
pub fn begins_factor(class: u8) -> bool
    ensures { result ≡ has factor_first class }
{
    begins_unary(class) || begins_atom(class)
}

/// Whether the class begins an expression.
#[inline(always)]
pub fn begins_expr(class: u8) -> bool
    ensures { result ≡ has expr_first class }
{
    match class {
        NAME | NUMBER | TEXT | F_STRING_START | FALSE | NONE | TRUE | ELLIPSIS => true,
        NOT | PLUS | MINUS | TILDE | LEFT_PAREN | LEFT_BRACKET | LEFT_BRACE => true,
        _ => false,
    }
}

/// Whether the class is that of a comparison of one token.
pub fn begins_comparator(class: u8) -> bool
    ensures { result ≡ has comparator_codes class }
{
    class == LESS
        || class == LESS_EQUAL
        || class == GREATER
        || class == GREATER_EQUAL
        || class == DOUBLE_EQUAL
        || class == NOT_EQUAL
        || class == IN
}

/// Whether the class begins a comparison.
pub fn begins_comparison(class: u8) -> bool
    ensures { result ≡ has comparison_first class }
{
    class == NOT || class == IS || begins_comparator(class)
}

/// Whether the class begins an argument, where `keyword` says that it must have a keyword.
pub fn begins_argument(keyword: bool, class: u8) -> bool
    ensures { result ≡ has (argument_first keyword) class }
{
    if keyword {
        class == NAME || class == SUPER
    } else {
        class == SUPER || begins_expr(class)
    }
}

/// Whether the class begins a step, where `callable` says that what stands before it may be called.
pub fn begins_step(callable: bool, class: u8) -> bool
    ensures { result ≡ has (step_first callable) class }
{
    class == DOT || class == LEFT_BRACKET || (callable && class == LEFT_PAREN)
}

/// Whether the class is that of a binary operator of this level, the tightest first.
pub fn begins_operand(level: u8, class: u8) -> bool
    requires { level < 6 }
    ensures { result ≡ has (level_codes level) class }
{
    match level {
        0 => {
            class == STAR
                || class == AT
                || class == SLASH
                || class == DOUBLE_SLASH
                || class == PERCENT
        }
        1 => class == PLUS || class == MINUS,
        2 => class == LEFT_SHIFT || class == RIGHT_SHIFT,
        3 => class == AMPERSAND,
        4 => class == CARET,
        _ => class == BAR,
    }
}

/// Whether the class is that of a binary operator of some level, or begins a comparison.
pub fn begins_operator(class: u8) -> bool
    ensures binary { (level : ℕ) → result ≡ false → has (level_codes level) class ≡ false }
    ensures comparison { result ≡ false → has comparison_first class ≡ false }
{
    match class {
        NOT | IN | IS => true,
        PLUS | MINUS | STAR | SLASH | DOUBLE_SLASH | PERCENT | AT => true,
        LEFT_SHIFT | RIGHT_SHIFT | AMPERSAND | BAR | CARET => true,
        LESS | GREATER | LESS_EQUAL | GREATER_EQUAL | DOUBLE_EQUAL | NOT_EQUAL => true,
        _ => false,
    }
}

/// Whether the class is that of `and`, `or` or `if`.
pub fn begins_logic(class: u8) -> bool
    ensures conjunction { result ≡ false → has (AND ∷ []) class ≡ false }
    ensures disjunction { result ≡ false → has (OR ∷ []) class ≡ false }
    ensures choice { result ≡ false → has (IF ∷ []) class ≡ false }
{
    class == AND || class == OR || class == IF
}

/// Whether the class is one with which a power, operands, a comparison or a conditional goes on behind its first primary.
pub fn goes_wider(class: u8) -> bool
    ensures exponent { result ≡ false → has (DOUBLE_STAR ∷ []) class ≡ false }
    ensures binary { (level : ℕ) → result ≡ false → has (level_codes level) class ≡ false }
    ensures comparison { result ≡ false → has comparison_first class ≡ false }
    ensures conjunction { result ≡ false → has (AND ∷ []) class ≡ false }
    ensures disjunction { result ≡ false → has (OR ∷ []) class ≡ false }
    ensures choice { result ≡ false → has (IF ∷ []) class ≡ false }
{
    class == DOUBLE_STAR || begins_operator(class) || begins_logic(class)
}
