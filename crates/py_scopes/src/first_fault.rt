//! The fault of a module's names alone, for which no scope of a function is kept.

ghost use Rattle.std.specs.Prelude.{◌≡◌, ◌||◌, [], true, filter, map, IfOk, IfErr, OnOk};
ghost use Rattle.std.specs.List.{flat_map, fold, list_any};
ghost use Rattle.rv_names.specs.Keys.{bytes_equal};
ghost use Rattle.py_ast.specs.Bindings.{parameter};
ghost use Rattle.py_ast.specs.ScopeFaults.{sooner, bound_twice, variable_calls, locals, is_method, globals, functions, classes, used_in_body, function_faults, class_faults, scope_fault, HasNoScopeFault};
ghost use Rattle.py_scopes.specs.Names.{is_named, is_variable_of};
ghost use Rattle.py_scopes.specs.Scopes.{IsFaultOf};

use crate::error::ScopeError;
use crate::faults::{bound_twice, methods_are_apart, variable_calls};
use crate::module::{
    all_methods_fault, bindings_of, calls_of, locals_of, module_fault, parameters_of, scope_of,
};
use crate::scope::{FEW, Scope};
use py_ast::{Binding, Class, Function, Module, Parameter, ScopeFault, Stmt, StmtForm, Use};
use rv_names::{Memory, Name};
use std::alloc::Global;

/// The sooner of what is known and of those of the calls in a function that are of variables.
#[inline(never)]
fn known_call_fault(
    alloc: Global,
    function: &Function,
    calls: &[Use],
    globals: &Scope,
    known: Option<ScopeFault>,
) -> Result<Option<ScopeFault>, Memory>
    ensures { IfOk result (λ f. f ≡ fold sooner known (variable_calls (λ n. is_named n (locals function.now) || is_variable_of n globals.now) calls.now)) }
{
    let locals = locals_of(alloc, function)?;
    Ok(variable_calls(calls, &locals, globals, known))
}

/// The sooner of what is known and of the calls of variables in a function. Where it calls no name, its locals aren't asked.
fn call_fault(
    alloc: Global,
    function: &Function,
    globals: &Scope,
    known: Option<ScopeFault>,
) -> Result<Option<ScopeFault>, Memory>
    ensures { IfOk result (λ f. f ≡ fold sooner known (variable_calls (λ n. is_named n (locals function.now) || is_variable_of n globals.now) (used_in_body function.now))) }
{
    let calls = calls_of(alloc, function.body.as_slice())?;
    if calls.is_empty() {
        return Ok(known);
    }
    known_call_fault(alloc, function, calls.as_slice(), globals, known)
}

fn has_name(items: &[Parameter], name: &Name) -> bool
    ensures { result ≡ list_any (λ p. bytes_equal p.name.name name.now) items.now }
{
    items.iter().any(|item| item.name.name == *name)
}

/// Whether one of the parameters has the name, as their bindings tell it.
fn is_parameter(items: &[Parameter], name: &Name) -> bool
    ensures { result ≡ is_named name.now (map parameter items.now) }
{
    has_name(items, name)
}

/// Whether no two parameters have one name, by a comparison for each pair.
fn are_apart(items: &[Parameter]) -> bool
    ensures { result ≡ true → bound_twice (map parameter items.now) ≡ [] }
{
    for (place, item) in items.iter().enumerate() {
        if is_parameter(&items[..place], &item.name.name) {
            return false;
        }
    }
    true
}

/// The sooner of what is known and of the parameters of one name, by a list of their bindings.
#[cold]
#[inline(never)]
fn all_parameters_fault(
    alloc: Global,
    items: &[Parameter],
    known: Option<ScopeFault>,
) -> Result<Option<ScopeFault>, Memory>
    ensures { IfOk result (λ f. f ≡ fold sooner known (bound_twice (map parameter items.now))) }
{
    let parameters = parameters_of(alloc, items)?;
    bound_twice(&parameters, known)
}

/// The sooner of what is known and of the parameters of one name. Where few have none, no list of bindings is made.
fn parameters_fault(
    alloc: Global,
    items: &[Parameter],
    known: Option<ScopeFault>,
) -> Result<Option<ScopeFault>, Memory>
    ensures { IfOk result (λ f. f ≡ fold sooner known (bound_twice (map parameter items.now))) }
{
    if items.len() <= FEW && are_apart(items) {
        return Ok(known);
    }
    all_parameters_fault(alloc, items, known)
}

/// The sooner of what is known and of the faults of a function.
fn function_fault(
    alloc: Global,
    function: &Function,
    globals: &Scope,
    known: Option<ScopeFault>,
) -> Result<Option<ScopeFault>, Memory>
    ensures { IfOk result (λ f. f ≡ fold sooner known (function_faults (λ n. is_variable_of n globals.now) function.now)) }
{
    let known = parameters_fault(alloc, function.parameters.as_slice(), known)?;
    call_fault(alloc, function, globals, known)
}

/// The sooner of what is known and of the faults of the functions that stand directly among the statements.
fn functions_fault(
    alloc: Global,
    stmts: &[Stmt],
    globals: &Scope,
    known: Option<ScopeFault>,
) -> Result<Option<ScopeFault>, Memory>
    ensures { IfOk result (λ f. f ≡ fold sooner known (flat_map (function_faults (λ n. is_variable_of n globals.now)) (functions stmts.now))) }
{
    let mut fault = known;
    for stmt in stmts {
        if let StmtForm::Function(item) = &stmt.form {
            fault = function_fault(alloc, item, globals, fault)?;
        }
    }
    Ok(fault)
}

/// The sooner of what is known and of the methods of one name. Where few members have none, no list of the methods is made.
fn methods_fault(
    alloc: Global,
    members: &[Binding],
    known: Option<ScopeFault>,
) -> Result<Option<ScopeFault>, Memory>
    ensures { IfOk result (λ f. f ≡ fold sooner known (bound_twice (filter is_method members.now))) }
{
    if members.len() <= FEW && methods_are_apart(members) {
        return Ok(known);
    }
    all_methods_fault(alloc, members, known)
}

/// The sooner of what is known and of the faults of a class.
#[inline(never)]
fn class_fault(
    alloc: Global,
    class: &Class,
    globals: &Scope,
    known: Option<ScopeFault>,
) -> Result<Option<ScopeFault>, Memory>
    ensures { IfOk result (λ f. f ≡ fold sooner known (class_faults (λ n. is_variable_of n globals.now) class.now)) }
{
    let stmts = class.body.as_slice();
    let members = bindings_of(alloc, stmts)?;
    let known = methods_fault(alloc, members.as_slice(), known)?;
    functions_fault(alloc, stmts, globals, known)
}

/// The sooner of what is known and of the faults of the classes that stand directly among the statements.
fn classes_fault(
    alloc: Global,
    stmts: &[Stmt],
    globals: &Scope,
    known: Option<ScopeFault>,
) -> Result<Option<ScopeFault>, Memory>
    ensures { IfOk result (λ f. f ≡ fold sooner known (flat_map (class_faults (λ n. is_variable_of n globals.now)) (classes stmts.now))) }
{
    let mut fault = known;
    for stmt in stmts {
        if let StmtForm::Class(item) = &stmt.form {
            fault = class_fault(alloc, item, globals, fault)?;
        }
    }
    Ok(fault)
}

/// The fault of least place, by the module's own names.
fn fault_by(alloc: Global, tree: &Module, variables: &Scope) -> Result<Option<ScopeFault>, Memory>
    requires { variables.now ≡ globals tree.now }
    ensures { IfOk result (λ f. f ≡ scope_fault tree.now) }
{
    let stmts = tree.body.as_slice();
    let known = module_fault(alloc, tree, variables)?;
    let known = functions_fault(alloc, stmts, variables, known)?;
    classes_fault(alloc, stmts, variables, known)
}

/// The fault of least place.
fn first_fault(alloc: Global, tree: &Module) -> Result<Option<ScopeFault>, Memory>
    ensures { IfOk result (λ f. f ≡ scope_fault tree.now) }
{
    let variables = scope_of(alloc, tree.body.as_slice())?;
    fault_by(alloc, tree, &variables)
}

/// The fault of least place among the names of a module, as `scopes` answers it, without the scopes. It costs much less than
/// they do. Linear in the module, but for the hashes of its names.
pub fn scope_fault(alloc: Global, tree: &Module) -> Result<(), ScopeError>
    ensures ok { OnOk result (HasNoScopeFault tree.now) }
    ensures fault { IfErr result (IsFaultOf tree.now) }
{
    match first_fault(alloc, tree)? {
        None => Ok(()),
        Some(ScopeFault::Twice(name, at)) => Err(ScopeError::Twice(name, at)),
        Some(ScopeFault::Unsupported(form, at)) => Err(ScopeError::Unsupported(form, at)),
    }
}
