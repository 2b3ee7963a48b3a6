//! The scopes of a module, and its fault.

ghost use Rattle.std.specs.Prelude.{◌≡◌, ◌++◌, [], ◌||◌, cond, false, None, fold, map, filter, IfOk, IfErr, OnOk};
ghost use Rattle.std.specs.List.{flat_map};
ghost use Rattle.py_ast.specs.Bindings.{bindings, parameter};
ghost use Rattle.py_ast.specs.Kinds.{is_init};
ghost use Rattle.py_ast.specs.Owned as spec;
ghost use Rattle.py_ast.specs.ScopeFaults.{sooner, bound_twice, variable_calls, parameters, locals, members, is_method, globals, functions, classes, used_in_body, is_global_variable, function_faults, class_faults, scope_fault, HasNoScopeFault};
ghost use Rattle.py_ast.specs.Uses.{used_in_all};
ghost use Rattle.py_ast.specs.declared.statement.Class.{out-Class};
ghost use Rattle.py_ast.specs.declared.statement.Function.{out-Function};
ghost use Rattle.py_scopes.specs.Listed.{is_wanted};
ghost use Rattle.py_scopes.specs.Names.{is_named, is_variable_of};
ghost use Rattle.py_scopes.specs.Scopes.{function_scope, class_scope, scopes_of, IsFaultOf};
ghost use Rattle.py_scopes.specs.declared.uses.Wanted.TheVariants.{Calls};

use crate::beside::beside;
use crate::error::ScopeError;
use crate::faults::{bound_twice, variable_calls};
use crate::kinds::is_function;
use crate::layers::{ClassScope, FunctionScope, Scopes};
use crate::owned::{copy, first_owned, locals_owned};
use crate::scope::Scope;
use crate::usage::Usage;
use crate::uses::Wanted;
use crate::{bindings, statements};
use py_ast::{Binding, Class, Function, Module, Parameter, ScopeFault, Stmt, StmtForm, Use};
use rv_names::{Memory, Name};
use sqlite_items::Items;
use std::alloc::Global;

/// The bindings of the statements, outside of loops.
pub fn bindings_of(alloc: Global, stmts: &[Stmt]) -> Result<Items<Binding>, Memory>
    ensures { IfOk result (λ bs. bs ≡ bindings stmts.now) }
{
    let mut found = Items::new(alloc);
    bindings::block(alloc, stmts, false, &mut found)?;
    Ok(found)
}

/// Their scope.
pub fn scope_of(alloc: Global, stmts: &[Stmt]) -> Result<Scope, Memory>
    ensures { IfOk result (λ s. s ≡ bindings stmts.now) }
{
    Scope::new(alloc, bindings_of(alloc, stmts)?)
}

/// The uses of names in the statements.
#[tactic(auto, using(crate::proofs::UseLemmas::all_listed))]
pub fn uses_of(alloc: Global, stmts: &[Stmt]) -> Result<Items<Use>, Memory>
    ensures { IfOk result (λ us. us ≡ used_in_all stmts.now) }
{
    let mut found = Items::new(alloc);
    statements::block(stmts, Wanted::All, &mut found)?;
    Ok(found)
}

/// The calls of names in the statements.
pub fn calls_of(alloc: Global, stmts: &[Stmt]) -> Result<Items<Use>, Memory>
    ensures { IfOk result (λ us. us ≡ filter (is_wanted Calls) (used_in_all stmts.now)) }
{
    let mut found = Items::new(alloc);
    statements::block(stmts, Wanted::Calls, &mut found)?;
    Ok(found)
}

fn usage_of(alloc: Global, stmts: &[Stmt]) -> Result<Usage, Memory>
    ensures { IfOk result (λ u. u ≡ used_in_all stmts.now) }
{
    Usage::new(alloc, uses_of(alloc, stmts)?)
}

/// The scope of the parameters alone.
pub fn parameters_of(alloc: Global, items: &[Parameter]) -> Result<Scope, Memory>
    ensures { IfOk result (λ s. s ≡ map parameter items.now) }
{
    let mut found = Items::new(alloc);
    bindings::parameters(items, &mut found)?;
    Scope::new(alloc, found)
}

/// The scope of the function's own names.
pub fn locals_of(alloc: Global, function: &Function) -> Result<Scope, Memory>
    ensures { IfOk result (λ s. s ≡ locals function.now) }
{
    let mut found = Items::new(alloc);
    bindings::parameters(function.parameters.as_slice(), &mut found)?;
    bindings::block(alloc, function.body.as_slice(), false, &mut found)?;
    Scope::new(alloc, found)
}

/// The bindings of the names that are owned, of an `__init__` of a class the first parameter too.
fn owned_of(
    alloc: Global,
    init: bool,
    parameters: &Scope,
    locals: &Scope,
    usage: &Usage,
) -> Result<Scope, Memory>
    ensures { IfOk result (λ s. s ≡ cond init (spec.first_owned locals.now usage.now parameters.now) [] ++ filter (spec.owns locals.now usage.now) locals.now) }
{
    let mut found = Items::new(alloc);
    if init {
        first_owned(parameters, locals, usage, &mut found)?;
    }
    locals_owned(locals, usage, &mut found)?;
    Scope::new(alloc, found)
}

fn is_init(name: &Name) -> bool
    ensures { result ≡ is_init name.now }
{
    name.as_str() == "__init__"
}

/// The scope of the parameters of a function alone, and that of all its own names.
fn bound_of(alloc: Global, function: &Function) -> Result<(Scope, Scope), Memory>
    ensures parameters { IfOk result (λ x. x.0 ≡ parameters function.now) }
    ensures locals { IfOk result (λ x. x.1 ≡ locals function.now) }
{
    let parameters = parameters_of(alloc, function.parameters.as_slice())?;
    beside(parameters, locals_of(alloc, function))
}

/// These scopes, with the name of the function.
fn named_scope(
    function: &Function,
    parameters: Scope,
    locals: Scope,
    owned: Scope,
) -> Result<FunctionScope, Memory>
    ensures { IfOk result (λ s. s ≡ record { name = (out-Function function.now).name.name; at = (out-Function function.now).name.at; parameters = parameters; locals = locals; owned = owned }) }
{
    let scopes = (parameters, locals, owned);
    let (scopes, name) = beside(scopes, function.name.name.copy())?;
    let (parameters, locals, owned) = scopes;
    Ok(FunctionScope {
        name,
        at: function.name.at,
        parameters,
        locals,
        owned,
    })
}

/// The scope of a function, which is a method or not, by what its body uses.
fn function_scope(
    alloc: Global,
    method: bool,
    function: &Function,
    usage: &Usage,
) -> Result<FunctionScope, Memory>
    requires { usage.now ≡ used_in_body function.now }
    ensures { IfOk result (λ s. s ≡ function_scope method function.now) }
{
    let (parameters, locals) = bound_of(alloc, function)?;
    let init = method && is_init(&function.name.name);
    let owned = owned_of(alloc, init, &parameters, &locals, usage)?;
    named_scope(function, parameters, locals, owned)
}

/// The sooner of what is known, of names that are bound again, and of calls of variables in a body that uses these.
#[tactic(auto, using(crate::proofs::FaultLemmas::fold_more))]
fn body_fault(
    bound: &Scope,
    locals: &Scope,
    uses: &[Use],
    globals: &Scope,
    known: Option<ScopeFault>,
) -> Result<Option<ScopeFault>, Memory>
    ensures { IfOk result (λ f. f ≡ fold sooner known (bound_twice bound.now ++ variable_calls (λ n. is_named n locals.now || is_variable_of n globals.now) uses.now)) }
{
    let known = bound_twice(bound, known)?;
    Ok(variable_calls(uses, locals, globals, known))
}

/// The scope of a function, and the sooner of what is known and of its faults, by what its body uses.
fn read_used(
    alloc: Global,
    method: bool,
    function: &Function,
    usage: &Usage,
    globals: &Scope,
    known: Option<ScopeFault>,
) -> Result<(FunctionScope, Option<ScopeFault>), Memory>
    requires { usage.now ≡ used_in_body function.now }
    ensures scope { IfOk result (λ r. r.0 ≡ function_scope method function.now) }
    ensures fault { IfOk result (λ r. r.1 ≡ fold sooner known (function_faults (λ n. is_variable_of n globals.now) function.now)) }
{
    let (known, scope) = beside(known, function_scope(alloc, method, function, usage))?;
    let fault = body_fault(
        &scope.parameters,
        &scope.locals,
        usage.uses(),
        globals,
        known,
    );
    beside(scope, fault)
}

fn read_function(
    alloc: Global,
    method: bool,
    function: &Function,
    globals: &Scope,
    known: Option<ScopeFault>,
) -> Result<(FunctionScope, Option<ScopeFault>), Memory>
    ensures scope { IfOk result (λ r. r.0 ≡ function_scope method function.now) }
    ensures fault { IfOk result (λ r. r.1 ≡ fold sooner known (function_faults (λ n. is_variable_of n globals.now) function.now)) }
{
    let (known, usage) = beside(known, usage_of(alloc, function.body.as_slice()))?;
    read_used(alloc, method, function, &usage, globals, known)
}

/// Adds the scopes of the functions that stand directly among the statements, and answers the sooner of what is known and of
/// their faults.
fn read_functions(
    alloc: Global,
    method: bool,
    stmts: &[Stmt],
    globals: &Scope,
    known: Option<ScopeFault>,
    found: &mut Items<FunctionScope>,
) -> Result<Option<ScopeFault>, Memory>
    ensures scopes { OnOk result (found.new ≡ found.old ++ map (function_scope method) (functions stmts.now)) }
    ensures fault { IfOk result (λ f. f ≡ fold sooner known (flat_map (function_faults (λ n. is_variable_of n globals.now)) (functions stmts.now))) }
{
    let mut fault = known;
    for stmt in stmts {
        if let StmtForm::Function(item) = &stmt.form {
            let (scope, next) = read_function(alloc, method, item, globals, fault)?;
            fault = next;
            found.push(scope)?;
        }
    }
    Ok(fault)
}

/// The methods among the members of a class.
fn methods_of(alloc: Global, members: &[Binding]) -> Result<Scope, Memory>
    ensures { IfOk result (λ s. s ≡ filter is_method members.now) }
{
    let mut found = Items::new(alloc);
    for binding in members {
        if is_function(&binding.kind) {
            found.push(copy(binding)?)?;
        }
    }
    Scope::new(alloc, found)
}

/// The scope of a class, without its methods.
fn scope_without_methods(alloc: Global, class: &Class) -> Result<ClassScope, Memory>
    ensures { IfOk result (λ s. s ≡ record { name = (out-Class class.now).name.name; at = (out-Class class.now).name.at; members = members class.now; methods = [] }) }
{
    let members = scope_of(alloc, class.body.as_slice())?;
    let (members, name) = beside(members, class.name.name.copy())?;
    Ok(ClassScope {
        name,
        at: class.name.at,
        members,
        methods: Items::new(alloc),
    })
}

/// The sooner of what is known and of the methods of one name among the members, by a list of their bindings.
#[inline(never)]
pub fn all_methods_fault(
    alloc: Global,
    members: &[Binding],
    known: Option<ScopeFault>,
) -> Result<Option<ScopeFault>, Memory>
    ensures { IfOk result (λ f. f ≡ fold sooner known (bound_twice (filter is_method members.now))) }
{
    let (known, methods) = beside(known, methods_of(alloc, members))?;
    bound_twice(&methods, known)
}

fn read_class(
    alloc: Global,
    class: &Class,
    globals: &Scope,
    known: Option<ScopeFault>,
) -> Result<(ClassScope, Option<ScopeFault>), Memory>
    ensures scope { IfOk result (λ r. r.0 ≡ class_scope class.now) }
    ensures fault { IfOk result (λ r. r.1 ≡ fold sooner known (class_faults (λ n. is_variable_of n globals.now) class.now)) }
{
    let (known, scope) = beside(known, scope_without_methods(alloc, class))?;
    let known = all_methods_fault(alloc, scope.members.bindings(), known);
    let (mut scope, known) = beside(scope, known)?;
    let fault = read_functions(
        alloc,
        true,
        class.body.as_slice(),
        globals,
        known,
        &mut scope.methods,
    );
    beside(scope, fault)
}

/// Adds the scopes of the classes that stand directly among the statements, and answers the sooner of what is known and of
/// their faults.
fn read_classes(
    alloc: Global,
    stmts: &[Stmt],
    globals: &Scope,
    known: Option<ScopeFault>,
    found: &mut Items<ClassScope>,
) -> Result<Option<ScopeFault>, Memory>
    ensures scopes { OnOk result (found.new ≡ found.old ++ map class_scope (classes stmts.now)) }
    ensures fault { IfOk result (λ f. f ≡ fold sooner known (flat_map (class_faults (λ n. is_variable_of n globals.now)) (classes stmts.now))) }
{
    let mut fault = known;
    for stmt in stmts {
        if let StmtForm::Class(item) = &stmt.form {
            let (scope, next) = read_class(alloc, item, globals, fault)?;
            fault = next;
            found.push(scope)?;
        }
    }
    Ok(fault)
}

/// The fault of the module's own names: those that are bound again, and calls at its top level.
pub fn module_fault(
    alloc: Global,
    tree: &Module,
    variables: &Scope,
) -> Result<Option<ScopeFault>, Memory>
    requires { variables.now ≡ globals tree.now }
    ensures { IfOk result (λ f. f ≡ fold sooner None (bound_twice (globals tree.now) ++ variable_calls (is_global_variable tree.now) (used_in_all tree.now.body))) }
{
    let calls = calls_of(alloc, tree.body.as_slice())?;
    if calls.is_empty() {
        return bound_twice(variables, None);
    }
    let locals = Scope::new(alloc, Items::new(alloc))?;
    body_fault(variables, &locals, calls.as_slice(), variables, None)
}

/// Adds the scopes of the module's functions and classes, and answers its fault of least place.
fn read_layers(
    alloc: Global,
    tree: &Module,
    variables: &Scope,
    all_functions: &mut Items<FunctionScope>,
    all_classes: &mut Items<ClassScope>,
) -> Result<Option<ScopeFault>, Memory>
    requires { variables.now ≡ globals tree.now }
    ensures functions { OnOk result (all_functions.new ≡ all_functions.old ++ map (function_scope false) (functions tree.now.body)) }
    ensures classes { OnOk result (all_classes.new ≡ all_classes.old ++ map class_scope (classes tree.now.body)) }
    ensures fault { IfOk result (λ f. f ≡ scope_fault tree.now) }
{
    let stmts = tree.body.as_slice();
    let known = module_fault(alloc, tree, variables)?;
    let known = read_functions(alloc, false, stmts, variables, known, all_functions)?;
    read_classes(alloc, stmts, variables, known, all_classes)
}

/// The scopes of the module, and its fault of least place.
fn read(alloc: Global, tree: &Module) -> Result<(Scopes, Option<ScopeFault>), Memory>
    ensures scopes { IfOk result (λ r. r.0 ≡ scopes_of tree.now) }
    ensures fault { IfOk result (λ r. r.1 ≡ scope_fault tree.now) }
{
    let variables = scope_of(alloc, tree.body.as_slice())?;
    let mut all_functions = Items::new(alloc);
    let mut all_classes = Items::new(alloc);
    let fault = read_layers(
        alloc,
        tree,
        &variables,
        &mut all_functions,
        &mut all_classes,
    );
    let scopes = Scopes {
        globals: variables,
        functions: all_functions,
        classes: all_classes,
    };
    beside(scopes, fault)
}

/// The scopes of a module, or the fault of least place among its names (Language Reference, section 4.2).
///
/// A name that a `def`, a `class` or an import binds at the top level isn't bound again, but by an import of the same thing; no
/// two methods of a class and no two parameters of a function have one name: else `Twice`, at the place of the later binding. A
/// local, or a variable of the module, isn't called by its bare name: else `Unsupported`, at the place of the name.
/// `Memory` comes where memory ends. Linear in the module, but for the hashes of its names.
pub fn scopes(alloc: Global, tree: &Module) -> Result<Scopes, ScopeError>
    ensures scopes { IfOk result (λ s. HasNoScopeFault tree.now × (s ≡ scopes_of tree.now)) }
    ensures fault { IfErr result (IsFaultOf tree.now) }
{
    let (scopes, fault) = read(alloc, tree)?;
    match fault {
        None => Ok(scopes),
        Some(ScopeFault::Twice(name, at)) => Err(ScopeError::Twice(name, at)),
        Some(ScopeFault::Unsupported(form, at)) => Err(ScopeError::Unsupported(form, at)),
    }
}
