//! Expressions as trees (Language Reference, chapter 6).
//!
//! Nothing nests in a tree but what nests in the text: chains of calls, subscripts and attributes, the operands of one
//! level, comparisons and arguments are lists. Parentheses make no node.

use crate::whole_number::WholeNumber;
use py_literals::place::Pos;
use rv_names::{Name, Text};
use sqlite_items::{Boxed, Items};

/// A name, and the place of its first character.
#[derive(Drop)]
pub struct NameAt {
    pub name: Name,
    pub at: Pos,
}

/// An expression.
#[cycle(ast)]
#[derive(Drop)]
pub struct Expr {
    /// Its number among the nodes of its module: the place of the token that makes it one, which makes no other.
    ///
    /// That is an operator (of several in one level the first), the `if` of a conditional, the first comma of a tuple
    /// without parentheses, an opening bracket, the last name or bracket of a chain, or the one token that it is.
    pub node: Pos,
    /// Its first character, which may be the `(` round it.
    pub start: Pos,
    /// Where what happens at it is said to be: at a name; at an attribute's last name; at a subscript's `[`; at a call where
    /// it is at the callee; and elsewhere at its first character, without parentheses round the whole.
    pub anchor: Pos,
    /// Whether parentheses stand round it, which make no node.
    pub enclosed: bool,
    pub form: Form,
}

/// What an expression is.
#[cycle(ast)]
#[derive(Drop)]
pub enum Form {
    /// A name (6.2.1).
    Name(Name),
    /// A whole number (6.2.2).
    Number(WholeNumber),
    /// Strings that aren't formatted, neighbours joined (2.4.2).
    Text(Text),
    /// Strings of which one at least is formatted: the parts of all (2.4.3).
    Formatted(Items<Part>),
    /// `False`, `None`, `True` or `...`.
    Constant(Constant),
    /// A tuple, with parentheses of its own or without (6.2.3, 6.16).
    Tuple(Items<Expr>),
    /// A list display (6.2.5).
    List(Items<Expr>),
    /// A dictionary display (6.2.7).
    Dictionary(Items<Pair>),
    /// A value, the condition on which it is the value, and the other value (6.13).
    Conditional(Boxed<Expr>, Boxed<Expr>, Boxed<Expr>),
    /// Operands of `or` (6.11).
    Or(Boxed<Expr>, Items<Joined>),
    /// Operands of `and` (6.11).
    And(Boxed<Expr>, Items<Joined>),
    /// `not` and its operand (6.11).
    Not(Boxed<Expr>),
    /// Comparisons, chained where there are several (6.10).
    Comparison(Boxed<Expr>, Items<Compared>),
    /// Binary operators of one level, applied from the left (6.7 to 6.9).
    Binary(Boxed<Expr>, Items<Operand>),
    /// A unary operator and its operand (6.6).
    Unary(UnaryOperator, Boxed<Expr>),
    /// A base and its exponent (6.5).
    Power(Boxed<Expr>, Boxed<Expr>),
    /// A primary and what is done to it, step by step (6.3).
    Postfix(Boxed<Expr>, Items<Step>),
}

/// A part of a formatted string.
#[cycle(ast)]
#[derive(Drop)]
pub enum Part {
    /// A text between fields, or a string beside it that isn't formatted.
    Text(Text),
    /// An expression in braces.
    Field(Expr),
}

/// The constants that are spelled by a word, and `...`.
#[derive(Clone, Copy, Debug, PartialEq, Eq)]
pub enum Constant {
    False,
    None,
    True,
    Ellipsis,
}

/// Unary operators (6.6).
#[derive(Clone, Copy, Debug, PartialEq, Eq)]
pub enum UnaryOperator {
    Plus,
    Minus,
    Invert,
}

/// Binary operators (6.7 to 6.9), but for the power.
#[derive(Clone, Copy, Debug, PartialEq, Eq)]
pub enum BinaryOperator {
    Multiply,
    MatrixMultiply,
    Divide,
    FloorDivide,
    Remainder,
    Add,
    Subtract,
    LeftShift,
    RightShift,
    BitAnd,
    BitXor,
    BitOr,
}

/// Comparisons (6.10).
#[derive(Clone, Copy, Debug, PartialEq, Eq)]
pub enum Comparator {
    Less,
    LessEqual,
    Greater,
    GreaterEqual,
    Equal,
    NotEqual,
    In,
    NotIn,
    Is,
    IsNot,
}

/// A key and its value in a dictionary display.
#[cycle(ast)]
#[derive(Drop)]
pub struct Pair {
    pub key: Expr,
    pub value: Expr,
}

/// A further operand of `and` or `or`, and the place of the word before it.
#[cycle(ast)]
#[derive(Drop)]
pub struct Joined {
    pub at: Pos,
    pub value: Expr,
}

/// A further operand of a comparison, and the comparison before it with its place.
#[cycle(ast)]
#[derive(Drop)]
pub struct Compared {
    pub comparator: Comparator,
    pub at: Pos,
    pub value: Expr,
}

/// A further operand of a binary level, and the operator before it with its place.
#[cycle(ast)]
#[derive(Drop)]
pub struct Operand {
    pub operator: BinaryOperator,
    pub at: Pos,
    pub value: Expr,
}

/// What is done to a primary: it makes a node of what it is done to.
#[cycle(ast)]
#[derive(Drop)]
pub struct Step {
    /// The node's number: the place of an attribute's name, or of the opening bracket.
    pub node: Pos,
    pub form: StepForm,
}

/// What a step is (6.3).
#[cycle(ast)]
#[derive(Drop)]
pub enum StepForm {
    Attribute(Name),
    Subscript(Boxed<Expr>),
    Call(Items<Argument>),
}

/// An argument of a call (6.3.4), with its keyword where it has one.
#[cycle(ast)]
#[derive(Drop)]
pub struct Argument {
    pub keyword: Option<NameAt>,
    pub value: Expr,
}

/// One of several strings in a row.
#[derive(Drop)]
pub enum Piece {
    /// One that isn't formatted.
    Plain(Text),
    /// A formatted one: its parts.
    Formatted(Items<Part>),
}
