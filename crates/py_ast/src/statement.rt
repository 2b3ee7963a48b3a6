//! Statements and modules as trees (Language Reference, chapters 7 to 9).
//!
//! The branches of an `if`, the statements of a block, parameters, decorators and imported names are lists.

use crate::tree::{Argument, Expr, NameAt};
use py_literals::place::Pos;
use sqlite_items::{Boxed, Items};

/// A dotted name.
#[derive(Drop)]
pub struct Dotted {
    pub first: NameAt,
    pub others: Items<NameAt>,
}

/// A statement.
#[cycle(block)]
#[derive(Drop)]
pub struct Stmt {
    /// Its number among the nodes of its module: the place of the `=`, `:` or operator of an assignment, and of the
    /// first word of any other. A statement that is an expression has that one's number.
    pub node: Pos,
    /// Where what happens at it is said to be: a write, at its target's anchor; of several names, at the first; an
    /// iteration, at the first name; any other, at its first character.
    pub anchor: Pos,
    pub form: StmtForm,
}

/// What a statement is. What only few statements have is boxed, so that none takes more room than an assignment.
#[cycle(block)]
#[derive(Drop)]
pub enum StmtForm {
    /// An expression (7.1).
    Expression(Expr),
    /// A target, and the value that is assigned to it (7.2).
    Assign(Expr, Expr),
    /// A target, its annotation, and the value if there is one (7.2.2).
    Annotate(Expr, Boxed<Expr>, Option<Boxed<Expr>>),
    /// A target, the operator, and the right operand (7.2.1).
    Augment(Expr, AugmentOperator, Boxed<Expr>),
    /// A condition, and what is said where it fails (7.3).
    Assert(Expr, Option<Boxed<Expr>>),
    /// 7.4.
    Pass,
    /// 7.6.
    Return(Option<Expr>),
    /// 7.9.
    Break,
    /// 7.10.
    Continue,
    /// Modules (7.11).
    Import(Items<Imported>),
    /// A module, and names of it (7.11).
    ImportFrom(Dotted, Items<ImportedName>),
    /// The `if`, each `elif`, and the block of the `else`, which is empty where there is none (8.1).
    If(Branch, Items<Branch>, Items<Stmt>),
    /// A condition and a block (8.2).
    While(Expr, Items<Stmt>),
    /// Names, what is gone over, and a block (8.3).
    For(Items<NameAt>, Expr, Items<Stmt>),
    /// 8.7.
    Function(Function),
    /// 8.8.
    Class(Class),
}

/// The operators of augmented assignments (7.2.1).
#[derive(Clone, Copy, Debug, PartialEq, Eq)]
pub enum AugmentOperator {
    Add,
    Subtract,
    Multiply,
    MatrixMultiply,
    Divide,
    FloorDivide,
    Remainder,
    Power,
    RightShift,
    LeftShift,
    BitAnd,
    BitXor,
    BitOr,
}

/// An `if` or `elif`: its condition and its block.
#[cycle(block)]
#[derive(Drop)]
pub struct Branch {
    /// The place of the word.
    pub at: Pos,
    pub condition: Expr,
    pub body: Items<Stmt>,
}

/// A function definition (8.7).
#[cycle(block)]
#[derive(Drop)]
pub struct Function {
    pub decorators: Items<Decorator>,
    pub name: NameAt,
    pub parameters: Items<Parameter>,
    pub returns: Option<Boxed<Expr>>,
    pub body: Items<Stmt>,
}

/// A class definition (8.8), which has one base at most.
#[cycle(block)]
#[derive(Drop)]
pub struct Class {
    pub decorators: Items<Decorator>,
    pub name: NameAt,
    pub base: Option<Dotted>,
    pub body: Items<Stmt>,
}

/// A parameter of a function (8.7).
#[derive(Drop)]
pub struct Parameter {
    pub name: NameAt,
    pub annotation: Option<Expr>,
    pub default: Option<Expr>,
}

/// A decorator (8.7): a dotted name, and literal arguments where it is called.
#[derive(Drop)]
pub struct Decorator {
    /// The place of the `@`.
    pub at: Pos,
    pub name: Dotted,
    pub arguments: Option<Items<Argument>>,
}

/// A module that is imported, and its name here where it gets one (7.11).
#[derive(Drop)]
pub struct Imported {
    pub name: Dotted,
    pub alias: Option<NameAt>,
}

/// A name that is imported from a module, and its name here where it gets one (7.11).
#[derive(Drop)]
pub struct ImportedName {
    pub name: NameAt,
    pub alias: Option<NameAt>,
}

/// What expressions are as a target (7.2), and so what may follow them in a statement.
#[derive(Clone, Copy, Debug, PartialEq, Eq)]
pub enum Target {
    /// None: parentheses round a whole single target make it none too.
    Nothing,
    /// Two names or more, which may be assigned to.
    Names,
    /// A subscript, which may be assigned to and augmented.
    Place,
    /// A name or an attribute, which may be annotated too.
    Variable,
}

/// The statements of one block.
#[derive(Clone, Copy, Debug, PartialEq, Eq)]
pub enum Suite {
    /// Of anything but a class: whether it stands in a function, and whether in a loop of it.
    Body(bool, bool),
    /// Of a class.
    Members,
}

/// What follows the expressions that a statement begins with.
#[derive(Drop)]
pub enum Tail {
    /// Nothing: they are the statement.
    Alone,
    /// `=` and the value.
    Assigned(Pos, Expr),
    /// `:`, the annotation, and the value if there is one.
    Annotated(Pos, Boxed<Expr>, Option<Boxed<Expr>>),
    /// The operator and the right operand.
    Augmented(AugmentOperator, Pos, Boxed<Expr>),
}

/// A module: the statements of a file (9.2).
#[derive(Drop)]
pub struct Module {
    pub body: Items<Stmt>,
}
