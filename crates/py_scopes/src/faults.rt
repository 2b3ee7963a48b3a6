//! Names that are bound again, and calls of variables.

ghost use Rattle.std.specs.Prelude.{◌≡◌, ◌&&◌, ◌||◌, [], true, filter, fold, option_copied, IfOk};
ghost use Rattle.py_ast.specs.ScopeFaults.{differs, binds_again, bound_twice, is_called, variable_calls, is_method, place, sooner};
ghost use Rattle.py_scopes.specs.Names.{is_named, is_variable_of};

use crate::kinds::{binds, is_before, same_thing};
use crate::scope::{FEW, Scope, is_named};
use py_ast::{Binding, How, ScopeFault, Use};
use py_lexer::Form;
use py_literals::place::Pos;
use rv_names::{Memory, Name};

fn place(fault: &ScopeFault) -> Pos
    ensures { result ≡ place fault.now }
{
    match fault {
        ScopeFault::Twice(_, at) => *at,
        ScopeFault::Unsupported(_, at) => *at,
    }
}

/// The fault of lesser place, of two at one place the first.
fn sooner(known: Option<ScopeFault>, fault: ScopeFault) -> Option<ScopeFault>
    ensures { result ≡ sooner known fault }
{
    match known {
        None => Some(fault),
        Some(first) => {
            if is_before(place(&fault), place(&first)) {
                Some(fault)
            } else {
                Some(first)
            }
        }
    }
}

fn differs(first: Option<&Binding>, binding: &Binding) -> bool
    ensures { result ≡ differs (option_copied first.entry) binding.now }
{
    match first {
        None => false,
        Some(first) => {
            is_before(first.at, binding.at) && !same_thing(&first.kind, &binding.kind)
        }
    }
}

/// Whether the binding binds a name again that one of the bindings fixes, which is asked last: few are behind a first.
#[tactic(auto, using(crate::proofs::FaultLemmas::and_turned))]
fn binds_again(scope: &Scope, binding: &Binding) -> bool
    ensures { result ≡ binds_again scope.now binding.now }
{
    binds(&binding.kind)
        && differs(scope.first(&binding.name), binding)
        && scope.is_fixed(&binding.name)
}

/// Whether no name comes again, where a comparison for each pair of bindings costs less than to ask for each name.
fn are_apart(bindings: &[Binding]) -> bool
    ensures { result ≡ true → bound_twice bindings.now ≡ [] }
{
    for (place, binding) in bindings.iter().enumerate() {
        if is_named(&bindings[..place], &binding.name) {
            return false;
        }
    }
    true
}

/// Whether no two methods among the members have one name, where no two members have.
pub fn methods_are_apart(members: &[Binding]) -> bool
    ensures { result ≡ true → bound_twice (filter is_method members.now) ≡ [] }
{
    for (place, binding) in members.iter().enumerate() {
        if is_named(&members[..place], &binding.name) {
            return false;
        }
    }
    true
}

/// The sooner of what is known and of the names of the scope that are bound again. Linear in its bindings.
pub fn bound_twice(scope: &Scope, known: Option<ScopeFault>) -> Result<Option<ScopeFault>, Memory>
    ensures { IfOk result (λ f. f ≡ fold sooner known (bound_twice scope.now)) }
{
    let bindings = scope.bindings();
    if bindings.len() <= FEW && are_apart(bindings) {
        return Ok(known);
    }
    let mut found = known;
    for binding in bindings {
        if binds_again(scope, binding) {
            let name = binding.name.copy()?;
            found = sooner(found, ScopeFault::Twice(name, binding.at));
        }
    }
    Ok(found)
}

/// Whether it is the call of a local, or of a variable of the module.
fn is_variable_call(locals: &Scope, globals: &Scope, used: &Use) -> bool
    ensures { result ≡ (is_called used.now.how && (is_named used.now.name locals.now || is_variable_of used.now.name globals.now)) }
{
    matches!(used.how, How::Called) && (locals.has(&used.name) || globals.is_variable(&used.name))
}

/// The sooner of what is known and of the calls of variables among the uses. Linear in them.
pub fn variable_calls(
    uses: &[Use],
    locals: &Scope,
    globals: &Scope,
    known: Option<ScopeFault>,
) -> Option<ScopeFault>
    ensures { result ≡ fold sooner known (variable_calls (λ n. is_named n locals.now || is_variable_of n globals.now) uses.now) }
{
    let mut found = known;
    for used in uses {
        if is_variable_call(locals, globals, used) {
            found = sooner(found, ScopeFault::Unsupported(Form::VariableCall, used.at));
        }
    }
    found
}
