//! Notes on a project's files.

ghost use Rattle.std.specs.Prelude.{◌≡◌};
ghost use Rattle.py_ast.specs.Remarks.{remark_name};

use py_literals::place::Pos;
use rv_names::Text;
use std::fmt;

/// What a note says, in the order in which notes of one place are listed, which is that of their names.
#[derive(Clone, Copy, Debug, PartialEq, Eq, PartialOrd, Ord)]
pub enum RemarkKind {
    /// A class at which a cycle of bases is cut.
    BaseCycle,
    /// A parameter's source, or a key of `taint.config`, that has no effect.
    IgnoredKey,
    /// A module in place of which a package is seen.
    Shadowed,
    /// A kind that `taint.config` doesn't declare.
    UnknownKind,
    /// A parameter that the callable doesn't have.
    UnknownParameter,
}

impl RemarkKind {
    /// Its name, as notes print it.
    pub fn name(self) -> &'static str
        ensures { result.now ≡ remark_name self }
    {
        match self {
            RemarkKind::BaseCycle => "BaseCycle",
            RemarkKind::IgnoredKey => "IgnoredKey",
            RemarkKind::Shadowed => "Shadowed",
            RemarkKind::UnknownKind => "UnknownKind",
            RemarkKind::UnknownParameter => "UnknownParameter",
        }
    }
}

/// A note. Notes are ordered by path, place, kind and text.
#[derive(Drop, Debug, PartialEq, Eq, PartialOrd, Ord)]
pub struct Remark {
    pub path: Text,
    pub at: Pos,
    pub kind: RemarkKind,
    pub text: Text,
}

/// `PATH:LINE:COL KIND TEXT`.
impl fmt::Display for Remark {
    fn fmt<W: fmt::Write>(&self, f: &mut fmt::Formatter<W>) -> fmt::Result {
        let kind = self.kind.name();
        write!(
            f,
            "{}:{}:{} {kind} {}",
            self.path, self.at.line, self.at.col, self.text
        )
    }
}
