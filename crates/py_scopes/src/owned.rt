//! The names that a function owns.

ghost use Rattle.std.specs.Prelude.{◌≡◌, ◌++◌, filter, IfOk, OnOk};
ghost use Rattle.py_ast.specs.Owned.{is_kept, owns, owns_first, first_owned};

use crate::scope::Scope;
use crate::usage::Usage;
use py_ast::{Binding, BindingKind, Display};
use rv_names::Memory;
use sqlite_items::Items;

fn copy_kind(kind: &BindingKind) -> Result<BindingKind, Memory>
    ensures { IfOk result (λ k. k ≡ kind.now) }
{
    Ok(match kind {
        BindingKind::Parameter => BindingKind::Parameter,
        BindingKind::Function => BindingKind::Function,
        BindingKind::Class => BindingKind::Class,
        BindingKind::Import(thing) => BindingKind::Import(thing.copy()?),
        BindingKind::Value(display) => BindingKind::Value(*display),
        BindingKind::Unpacked => BindingKind::Unpacked,
        BindingKind::Augmented => BindingKind::Augmented,
        BindingKind::Loop => BindingKind::Loop,
        BindingKind::Annotation => BindingKind::Annotation,
    })
}

/// The same binding.
pub fn copy(binding: &Binding) -> Result<Binding, Memory>
    ensures { IfOk result (λ b. b ≡ binding.now) }
{
    let name = binding.name.copy()?;
    let kind = copy_kind(&binding.kind)?;
    Ok(Binding {
        name,
        at: binding.at,
        node: binding.node,
        kind,
        annotated: binding.annotated,
        looped: binding.looped,
    })
}

fn is_kept(usage: &Usage, binding: &Binding) -> bool
    ensures { result ≡ is_kept binding.now.name usage.now binding.now.kind }
{
    match &binding.kind {
        BindingKind::Value(Display::List) => usage.keeps_list(&binding.name),
        BindingKind::Value(Display::Dictionary) => usage.keeps(&binding.name),
        _ => false,
    }
}

/// Whether the binding is the one of a name that is owned.
fn owns(locals: &Scope, usage: &Usage, binding: &Binding) -> bool
    ensures { result ≡ owns locals.now usage.now binding.now }
{
    !binding.looped && locals.is_bound_once(&binding.name) && is_kept(usage, binding)
}

/// Whether the first parameter is owned, of an `__init__`.
fn owns_first(locals: &Scope, usage: &Usage, binding: &Binding) -> bool
    ensures { result ≡ owns_first locals.now usage.now binding.now }
{
    locals.is_bound_once(&binding.name) && usage.keeps(&binding.name)
}

/// Adds the first parameter, where an `__init__` owns it.
pub fn first_owned(
    parameters: &Scope,
    locals: &Scope,
    usage: &Usage,
    found: &mut Items<Binding>,
) -> Result<(), Memory>
    ensures { OnOk result (found.new ≡ found.old ++ first_owned locals.now usage.now parameters.now) }
{
    if let [first, ..] = parameters.bindings() {
        if owns_first(locals, usage, first) {
            found.push(copy(first)?)?;
        }
    }
    Ok(())
}

/// Adds the bindings of the locals that are owned. Linear in the locals.
pub fn locals_owned(locals: &Scope, usage: &Usage, found: &mut Items<Binding>) -> Result<(), Memory>
    ensures { OnOk result (found.new ≡ found.old ++ filter (owns locals.now usage.now) locals.now) }
{
    let bindings = locals.bindings();
    for binding in bindings {
        if owns(locals, usage, binding) {
            found.push(copy(binding)?)?;
        }
    }
    Ok(())
}
