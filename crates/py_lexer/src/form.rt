//! The forms of Python, and of model files, that this reviewer doesn't read.

ghost use Rattle.std.specs.Prelude.{◌≡◌};
ghost use Rattle.py_lexer.specs.Form.{form_name};

use std::fmt;

/// A form that isn't supported: of Python's grammar, and at the end of model files.
#[derive(Clone, Copy, Debug, PartialEq, Eq)]
pub enum Form {
    Async,
    Await,
    Lambda,
    Comprehension,
    Yield,
    With,
    Try,
    Raise,
    Global,
    Nonlocal,
    Del,
    Match,
    Walrus,
    Star,
    InnerDef,
    InnerClass,
    InnerImport,
    Bases,
    ClassKeyword,
    ClassStatement,
    Super,
    InitCall,
    StaticMethod,
    ClassMethod,
    Property,
    Slice,
    Bytes,
    Float,
    Set,
    ChainedAssignment,
    StarImport,
    RelativeImport,
    LoopElse,
    Callee,
    VariableCall,
    Decorator,
    AppliesTo,
    ParameterPath,
    ReturnPath,
    Via,
    Updates,
    Transform,
    PartialSink,
    SkipAnalysis,
    SkipOverrides,
    Sanitize,
    ModelQuery,
}

impl Form {
    /// The form's name, as faults print it.
    pub fn name(self) -> &'static str
        ensures { result.now ≡ form_name self }
    {
        match self {
            Form::Async => "async",
            Form::Await => "await",
            Form::Lambda => "lambda",
            Form::Comprehension => "comprehension",
            Form::Yield => "yield",
            Form::With => "with",
            Form::Try => "try",
            Form::Raise => "raise",
            Form::Global => "global",
            Form::Nonlocal => "nonlocal",
            Form::Del => "del",
            Form::Match => "match",
            Form::Walrus => "walrus",
            Form::Star => "star",
            Form::InnerDef => "inner def",
            Form::InnerClass => "inner class",
            Form::InnerImport => "inner import",
            Form::Bases => "bases",
            Form::ClassKeyword => "class keyword",
            Form::ClassStatement => "class statement",
            Form::Super => "super",
            Form::InitCall => "init call",
            Form::StaticMethod => "staticmethod",
            Form::ClassMethod => "classmethod",
            Form::Property => "property",
            Form::Slice => "slice",
            Form::Bytes => "bytes",
            Form::Float => "float",
            Form::Set => "set",
            Form::ChainedAssignment => "chained assignment",
            Form::StarImport => "star import",
            Form::RelativeImport => "relative import",
            Form::LoopElse => "loop else",
            Form::Callee => "callee",
            Form::VariableCall => "variable call",
            Form::Decorator => "decorator",
            Form::AppliesTo => "AppliesTo",
            Form::ParameterPath => "ParameterPath",
            Form::ReturnPath => "ReturnPath",
            Form::Via => "Via",
            Form::Updates => "Updates",
            Form::Transform => "Transform",
            Form::PartialSink => "PartialSink",
            Form::SkipAnalysis => "SkipAnalysis",
            Form::SkipOverrides => "SkipOverrides",
            Form::Sanitize => "Sanitize",
            Form::ModelQuery => "ModelQuery",
        }
    }
}

impl fmt::Display for Form {
    ghost use Rattle.std.specs.Prelude.{Some};
    ghost use Rattle.py_lexer.specs.Form.{form_name};

    ghost output = { λ form. Some (form_name form) };

    fn fmt<W: fmt::Write>(&self, f: &mut fmt::Formatter<W>) -> fmt::Result {
        f.pad(self.name())
    }
}
