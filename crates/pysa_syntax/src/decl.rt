//! What a model file declares.

use py_literals::place::Pos;
use rv_names::{Name, QName};
use sqlite_items::Items;

/// One model: what is declared of a callable, or of the reads and writes of a name (Pysa's documentation, "Models").
#[derive(Drop)]
pub struct Decl {
    /// The name that the model is of, as it is written.
    pub name: QName,
    /// Whether it is a model with `def`.
    pub callable: bool,
    /// Whether `@SkipObscure` stands before it.
    pub skip: bool,
    /// The parameters in their order; none where the model has no `def`.
    pub params: Items<DeclParam>,
    /// The marks of the result or, without `def`, of the name.
    pub marks: Items<DeclMark>,
}

/// What a parameter of a model is (Language Reference, 8.7).
#[derive(Clone, Copy, Debug, PartialEq, Eq)]
pub enum ParamKind {
    /// `NAME`.
    Plain,
    /// The `*` before parameters that are passed by keyword alone.
    Star,
    /// The `/` behind parameters that are passed by position alone.
    Slash,
    /// `*NAME`.
    Rest,
    /// `**NAME`.
    Keywords,
}

/// A parameter of a model.
#[derive(Drop)]
pub struct DeclParam {
    pub kind: ParamKind,
    /// Its name, which a bare `*` or `/` does not have.
    pub name: Option<Name>,
    /// The place of its first token: the name, the star or the slash.
    pub at: Pos,
    /// Its marks, in their order.
    pub marks: Items<DeclMark>,
}

/// A mark, with the name of its kind and the place of that name. Several kinds in one bracket are a mark each.
#[derive(Drop)]
pub enum DeclMark {
    /// `TaintSource[KIND]`.
    Source(Name, Pos),
    /// `TaintSink[KIND]`.
    Sink(Name, Pos),
    /// `TaintInTaintOut`.
    Through,
}
