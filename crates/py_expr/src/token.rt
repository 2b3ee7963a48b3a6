//! Single tokens of expressions.

ghost use Rattle.std.specs.Prelude.{◌≡◌, ◌<◌, ◌∷◌, [], ℕ, true, List, IfOk, length};
ghost use Rattle.phrases.specs.Sets.{has, starts};
ghost use Rattle.phrases.specs.Reading.{Read};
ghost use Rattle.phrases.specs.Phrases.{token, opener};
ghost use Rattle.phrases.specs.Loops.{Gives};
ghost use Rattle.py_ast.specs.Kinds.{class, mark_of, pick, placed};
ghost use Rattle.py_ast.specs.Tokens.{leaf_codes, leaf_at, leaf_of, leaf_form, name_codes, name_of, name_value, text_of, text_value, part_text_of, part_value, unary_operator_of, unary_in, operator_of, binary_in, comparator_of, comparator_in};
ghost use Rattle.py_ast.specs.Trees.{leaf};

use crate::class::{
    F_STRING_TEXT, NEWLINE, SUPER, TEXT, begins_comparator, begins_leaf, begins_operand,
    begins_unary, class_of, code_of, is_name, is_super, is_text,
};
use phrases::{Fault, Stop};
use py_ast::{
    BinaryOperator, Comparator, Constant, Expr, Form, NameAt, Part, Piece, UnaryOperator,
    WholeNumber,
};
use py_lexer::{Kind, Token, Value};
use py_literals::place::Pos;
use rv_names::Memory;

/// What a function that reads gives: the value, and the tokens that it didn't take.
pub type Taken<'a, A> = Result<(A, &'a [Token]), Stop<'a, Token>>;

/// Whether the token is of this class. Its value is looked at only where a value has a part in the class.
#[inline(always)]
#[tactic(auto, using(crate::proofs::Marks::mark_is))]
pub fn is_of(token: &Token, code: u8) -> bool
    ensures { result ≡ has (code ∷ []) (class token.now) }
{
    if code == TEXT {
        is_text(token)
    } else if code == SUPER {
        is_super(token)
    } else if code < NEWLINE || code == F_STRING_TEXT {
        class_of(token) == code
    } else {
        code_of(token.kind) == code
    }
}

/// Whether a token of this class stands at the front.
#[inline(always)]
pub fn stands(tokens: &[Token], code: u8) -> bool
    ensures { result ≡ starts class (code ∷ []) tokens.now }
{
    match tokens {
        [first, ..] => is_of(first, code),
        [] => false,
    }
}

/// A token of this class, at its place.
#[inline(always)]
pub fn mark(tokens: &[Token], code: u8) -> Taken<'_, Pos>
    ensures read { Gives (λ x. Read x.0 x.1.now) result ((token (mark_of code)).read tokens.now) }
    ensures shorter { IfOk result (λ x. length x.1.now < length tokens.now) }
{
    match tokens {
        [first, rest @ ..] => {
            if is_of(first, code) {
                Ok((first.at, rest))
            } else {
                Err(Stop::Fault(Fault::Syntax, tokens))
            }
        }
        [] => Err(Stop::Fault(Fault::Syntax, tokens)),
    }
}

/// A token of this class that opens a nesting, where `room` is how many more may be open.
#[inline(always)]
pub fn open(tokens: &[Token], code: u8, room: u8) -> Taken<'_, Pos>
    ensures read { Gives (λ x. Read x.0 x.1.now) result ((opener room (mark_of code)).read tokens.now) }
    ensures room { IfOk result (λ x. 0 < room) }
    ensures shorter { IfOk result (λ x. length x.1.now < length tokens.now) }
{
    match tokens {
        [first, rest @ ..] => {
            if !is_of(first, code) {
                Err(Stop::Fault(Fault::Syntax, tokens))
            } else if room == 0 {
                Err(Stop::Fault(Fault::TooDeep, tokens))
            } else {
                Ok((first.at, rest))
            }
        }
        [] => Err(Stop::Fault(Fault::Syntax, tokens)),
    }
}

#[inline(always)]
fn leaf_form(kind: Kind, value: &Value) -> Result<Option<Form>, Memory>
    ensures { IfOk result (λ form. form ≡ leaf_form kind value.now) }
{
    match kind {
        Kind::Name => match value {
            Value::Name(name) => Ok(Some(Form::Name(name.copy()?))),
            _ => Ok(None),
        },
        Kind::Number => match value {
            Value::Whole(number) => Ok(Some(Form::Number(WholeNumber::new(*number)))),
            _ => Ok(None),
        },
        Kind::False => Ok(Some(Form::Constant(Constant::False))),
        Kind::None => Ok(Some(Form::Constant(Constant::None))),
        Kind::True => Ok(Some(Form::Constant(Constant::True))),
        Kind::Ellipsis => Ok(Some(Form::Constant(Constant::Ellipsis))),
        _ => Ok(None),
    }
}

/// An atom of one token, where one stands.
#[inline(always)]
pub fn leaf_here(tokens: &[Token]) -> Taken<'_, Expr>
    requires { starts class leaf_codes tokens.now ≡ true }
    ensures read { Gives (λ x. Read x.0 x.1.now) result ((token leaf_of).read tokens.now) }
    ensures shorter { IfOk result (λ x. length x.1.now < length tokens.now) }
{
    match tokens {
        [first, rest @ ..] => match leaf_form(first.kind, &first.value) {
            Err(Memory) => Err(Stop::Memory),
            Ok(None) => Err(Stop::Fault(Fault::Syntax, tokens)),
            Ok(Some(form)) => Ok((make_leaf(first.at, form), rest)),
        },
        [] => Err(Stop::Fault(Fault::Syntax, tokens)),
    }
}

/// An atom of one token.
pub fn leaf_token(tokens: &[Token]) -> Taken<'_, Expr>
    ensures read { Gives (λ x. Read x.0 x.1.now) result ((token leaf_of).read tokens.now) }
    ensures shorter { IfOk result (λ x. length x.1.now < length tokens.now) }
{
    match tokens {
        [first, ..] => {
            if begins_leaf(class_of(first)) {
                leaf_here(tokens)
            } else {
                Err(Stop::Fault(Fault::Syntax, tokens))
            }
        }
        [] => Err(Stop::Fault(Fault::Syntax, tokens)),
    }
}

/// A node that begins with the token that makes it.
#[inline(always)]
pub fn make_leaf(at: Pos, form: Form) -> Expr
    ensures { result ≡ leaf at form }
{
    Expr {
        node: at,
        start: at,
        anchor: at,
        enclosed: false,
        form,
    }
}

fn name_value(at: Pos, value: &Value) -> Result<Option<NameAt>, Memory>
    ensures { IfOk result (λ name. name ≡ name_value at value.now) }
{
    match value {
        Value::Name(name) => Ok(Some(NameAt {
            name: name.copy()?,
            at,
        })),
        _ => Ok(None),
    }
}

/// A name, `super` among them.
pub fn name_token(tokens: &[Token]) -> Taken<'_, NameAt>
    ensures read { Gives (λ x. Read x.0 x.1.now) result ((token (name_of name_codes)).read tokens.now) }
    ensures shorter { IfOk result (λ x. length x.1.now < length tokens.now) }
{
    match tokens {
        [first, rest @ ..] => {
            if !is_name(first) {
                return Err(Stop::Fault(Fault::Syntax, tokens));
            }
            match &first.value {
                Value::Name(name) => match name.copy() {
                    Ok(name) => Ok((NameAt { name, at: first.at }, rest)),
                    Err(Memory) => Err(Stop::Memory),
                },
                _ => Err(Stop::Fault(Fault::Syntax, tokens)),
            }
        }
        [] => Err(Stop::Fault(Fault::Syntax, tokens)),
    }
}

/// The name `super`.
pub fn super_token(tokens: &[Token]) -> Taken<'_, NameAt>
    ensures read { Gives (λ x. Read x.0 x.1.now) result ((token (name_of (SUPER ∷ []))).read tokens.now) }
    ensures shorter { IfOk result (λ x. length x.1.now < length tokens.now) }
{
    match tokens {
        [first, rest @ ..] => {
            if !is_super(first) {
                return Err(Stop::Fault(Fault::Syntax, tokens));
            }
            match name_value(first.at, &first.value) {
                Err(Memory) => Err(Stop::Memory),
                Ok(None) => Err(Stop::Fault(Fault::Syntax, tokens)),
                Ok(Some(name)) => Ok((name, rest)),
            }
        }
        [] => Err(Stop::Fault(Fault::Syntax, tokens)),
    }
}

/// A string that isn't formatted.
#[inline(always)]
pub fn text_token(tokens: &[Token]) -> Taken<'_, (Pos, Piece)>
    ensures read { Gives (λ x. Read (x.0.0, x.0.1) x.1.now) result ((token text_of).read tokens.now) }
    ensures shorter { IfOk result (λ x. length x.1.now < length tokens.now) }
{
    match tokens {
        [first, rest @ ..] => {
            if !is_text(first) {
                return Err(Stop::Fault(Fault::Syntax, tokens));
            }
            match &first.value {
                Value::Text(text) => match text.copy() {
                    Ok(text) => Ok(((first.at, Piece::Plain(text)), rest)),
                    Err(Memory) => Err(Stop::Memory),
                },
                _ => Err(Stop::Fault(Fault::Syntax, tokens)),
            }
        }
        [] => Err(Stop::Fault(Fault::Syntax, tokens)),
    }
}

/// A text between the fields of a formatted string.
pub fn part_text_token(tokens: &[Token]) -> Taken<'_, Part>
    ensures read { Gives (λ x. Read x.0 x.1.now) result ((token part_text_of).read tokens.now) }
    ensures shorter { IfOk result (λ x. length x.1.now < length tokens.now) }
{
    match tokens {
        [first, rest @ ..] => {
            if class_of(first) != F_STRING_TEXT {
                return Err(Stop::Fault(Fault::Syntax, tokens));
            }
            match &first.value {
                Value::Text(text) => match text.copy() {
                    Ok(text) => Ok((Part::Text(text), rest)),
                    Err(Memory) => Err(Stop::Memory),
                },
                _ => Err(Stop::Fault(Fault::Syntax, tokens)),
            }
        }
        [] => Err(Stop::Fault(Fault::Syntax, tokens)),
    }
}

fn unary_in(kind: Kind) -> Option<UnaryOperator>
    ensures { result ≡ unary_in kind }
{
    match kind {
        Kind::Plus => Some(UnaryOperator::Plus),
        Kind::Minus => Some(UnaryOperator::Minus),
        Kind::Tilde => Some(UnaryOperator::Invert),
        _ => None,
    }
}

/// A unary operator, which opens a nesting, where `room` is how many more may be open.
pub fn open_unary(tokens: &[Token], room: u8) -> Taken<'_, (UnaryOperator, Pos)>
    ensures read { Gives (λ x. Read (x.0.0, x.0.1) x.1.now) result ((opener room unary_operator_of).read tokens.now) }
    ensures room { IfOk result (λ x. 0 < room) }
    ensures shorter { IfOk result (λ x. length x.1.now < length tokens.now) }
{
    match tokens {
        [first, rest @ ..] => {
            if !begins_unary(class_of(first)) {
                return Err(Stop::Fault(Fault::Syntax, tokens));
            }
            match unary_in(first.kind) {
                None => Err(Stop::Fault(Fault::Syntax, tokens)),
                Some(operator) => {
                    if room == 0 {
                        Err(Stop::Fault(Fault::TooDeep, tokens))
                    } else {
                        Ok(((operator, first.at), rest))
                    }
                }
            }
        }
        [] => Err(Stop::Fault(Fault::Syntax, tokens)),
    }
}

fn binary_in(kind: Kind) -> Option<BinaryOperator>
    ensures { result ≡ binary_in kind }
{
    match kind {
        Kind::Star => Some(BinaryOperator::Multiply),
        Kind::At => Some(BinaryOperator::MatrixMultiply),
        Kind::Slash => Some(BinaryOperator::Divide),
        Kind::DoubleSlash => Some(BinaryOperator::FloorDivide),
        Kind::Percent => Some(BinaryOperator::Remainder),
        Kind::Plus => Some(BinaryOperator::Add),
        Kind::Minus => Some(BinaryOperator::Subtract),
        Kind::LeftShift => Some(BinaryOperator::LeftShift),
        Kind::RightShift => Some(BinaryOperator::RightShift),
        Kind::Ampersand => Some(BinaryOperator::BitAnd),
        Kind::Caret => Some(BinaryOperator::BitXor),
        Kind::Bar => Some(BinaryOperator::BitOr),
        _ => None,
    }
}

/// A binary operator of this level.
pub fn binary_token(tokens: &[Token], level: u8) -> Taken<'_, (BinaryOperator, Pos)>
    requires { level < 6 }
    ensures read { Gives (λ x. Read (x.0.0, x.0.1) x.1.now) result ((token (operator_of level)).read tokens.now) }
    ensures shorter { IfOk result (λ x. length x.1.now < length tokens.now) }
{
    match tokens {
        [first, rest @ ..] => {
            if !begins_operand(level, class_of(first)) {
                return Err(Stop::Fault(Fault::Syntax, tokens));
            }
            match binary_in(first.kind) {
                None => Err(Stop::Fault(Fault::Syntax, tokens)),
                Some(operator) => Ok(((operator, first.at), rest)),
            }
        }
        [] => Err(Stop::Fault(Fault::Syntax, tokens)),
    }
}

fn comparator_in(kind: Kind) -> Option<Comparator>
    ensures { result ≡ comparator_in kind }
{
    match kind {
        Kind::Less => Some(Comparator::Less),
        Kind::LessEqual => Some(Comparator::LessEqual),
        Kind::Greater => Some(Comparator::Greater),
        Kind::GreaterEqual => Some(Comparator::GreaterEqual),
        Kind::DoubleEqual => Some(Comparator::Equal),
        Kind::NotEqual => Some(Comparator::NotEqual),
        Kind::In => Some(Comparator::In),
        _ => None,
    }
}

/// A comparison of one token.
pub fn comparator_token(tokens: &[Token]) -> Taken<'_, (Comparator, Pos)>
    ensures read { Gives (λ x. Read (x.0.0, x.0.1) x.1.now) result ((token comparator_of).read tokens.now) }
    ensures shorter { IfOk result (λ x. length x.1.now < length tokens.now) }
{
    match tokens {
        [first, rest @ ..] => {
            if !begins_comparator(class_of(first)) {
                return Err(Stop::Fault(Fault::Syntax, tokens));
            }
            match comparator_in(first.kind) {
                None => Err(Stop::Fault(Fault::Syntax, tokens)),
                Some(comparator) => Ok(((comparator, first.at), rest)),
            }
        }
        [] => Err(Stop::Fault(Fault::Syntax, tokens)),
    }
}
