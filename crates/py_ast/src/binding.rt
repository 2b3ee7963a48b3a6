//! Places where a name is bound or used (Language Reference, section 4.2).

use py_lexer::Form;
use py_literals::place::Pos;
use rv_names::{Name, QName};

/// What a value is, where it is assigned to one name.
#[derive(Clone, Copy, Debug, PartialEq, Eq)]
pub enum Display {
    /// A list display (6.2.5).
    List,
    /// A dictionary display (6.2.7).
    Dictionary,
    /// Any other expression.
    Other,
}

/// How a name is bound (4.2.1).
#[derive(Drop)]
pub enum BindingKind {
    /// As a parameter of the function (8.7).
    Parameter,
    /// By a `def` (8.7).
    Function,
    /// By a `class` (8.8).
    Class,
    /// By an import (7.11), to the thing of this dotted name.
    Import(QName),
    /// By an assignment to this name alone (7.2), with an annotation or without.
    Value(Display),
    /// By an assignment to several names (7.2).
    Unpacked,
    /// By an augmented assignment (7.2.1).
    Augmented,
    /// By a `for` (8.3).
    Loop,
    /// Not at all: an annotation without a value (7.2.2) only says whose name it is.
    Annotation,
}

/// A place where a name is bound, or annotated alone.
#[derive(Drop)]
pub struct Binding {
    pub name: Name,
    /// The place of the name.
    pub at: Pos,
    /// The number of the statement; of a parameter the place of its name.
    pub node: Pos,
    pub kind: BindingKind,
    /// Whether the name has an annotation there.
    pub annotated: bool,
    /// Whether a `while` or `for` of the same body stands round the statement.
    pub looped: bool,
}

/// How a name is used.
#[derive(Clone, Copy, Debug, PartialEq, Eq)]
pub enum How {
    /// It is called.
    Called,
    /// It is the receiver of a call of a method.
    Receiver,
    /// It is the base of an attribute or a subscript that is read.
    Read,
    /// It is the base of an attribute or a subscript that is assigned to, or annotated.
    Written,
    /// It is gone over by a `for`, or unpacked.
    Iterated,
    /// It is the list in a statement that appends one value.
    Appended,
    /// It is all that is returned.
    Returned,
    /// It is used in any other way.
    Other,
}

/// A place where a name is used.
#[derive(Drop)]
pub struct Use {
    pub name: Name,
    /// The place of the name.
    pub at: Pos,
    pub how: How,
}

/// What is wrong with the names of a module that its grammar lets through.
#[derive(Drop)]
pub enum ScopeFault {
    /// A name that is bound again, at the place of that binding.
    Twice(Name, Pos),
    /// A form that isn't supported: the call of a variable, at the place of its name.
    Unsupported(Form, Pos),
}
