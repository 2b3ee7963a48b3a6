//! What kinds of bindings say, and the order of places.

ghost use Rattle.std.specs.Prelude.{◌≡◌};
ghost use Rattle.py_ast.specs.ScopeFaults.{is_before, binds, is_function, is_fixed, is_variable, same_thing};

use py_ast::BindingKind;
use py_literals::place::Pos;

/// Whether the first place stands before the second.
pub fn is_before(a: Pos, b: Pos) -> bool
    ensures { result ≡ is_before a b }
{
    a.line < b.line || (a.line == b.line && a.col < b.col)
}

/// Whether it binds the name, as an annotation alone doesn't.
pub fn binds(kind: &BindingKind) -> bool
    ensures { result ≡ binds kind.now }
{
    !matches!(kind, BindingKind::Annotation)
}

pub fn is_function(kind: &BindingKind) -> bool
    ensures { result ≡ is_function kind.now }
{
    matches!(kind, BindingKind::Function)
}

/// Whether the name isn't bound again, but by an import of the same thing.
pub fn is_fixed(kind: &BindingKind) -> bool
    ensures { result ≡ is_fixed kind.now }
{
    match kind {
        BindingKind::Parameter | BindingKind::Function | BindingKind::Class => true,
        BindingKind::Import(_) => true,
        _ => false,
    }
}

/// Whether the name is a variable, where it stands at the top level of a module.
pub fn is_variable(kind: &BindingKind) -> bool
    ensures { result ≡ is_variable kind.now }
{
    match kind {
        BindingKind::Value(_) | BindingKind::Unpacked | BindingKind::Augmented => true,
        BindingKind::Loop | BindingKind::Annotation => true,
        _ => false,
    }
}

/// Whether both are imports of one thing.
pub fn same_thing(first: &BindingKind, second: &BindingKind) -> bool
    ensures { result ≡ same_thing first.now second.now }
{
    match (first, second) {
        (BindingKind::Import(a), BindingKind::Import(b)) => a == b,
        _ => false,
    }
}
