//! Nests of calls (Language Reference, 6.3.4).

ghost use Rattle.std.specs.Prelude.{◌≡◌, ◌++◌, ◌∷◌, [], option_map, map};
ghost use Rattle.std.specs.Option.{option_copied};
ghost use Rattle.cut_form.specs.Answers.{Gives};
ghost use Rattle.cut_form.specs.Nests.{argument_nest, callee_names, is_small, link_of, member_of, members_in, nest_of, nest_within, shape_of};

use crate::refusal::Refusal;
use py_ast::{Argument, Expr, Form, Step, StepForm, WholeNumber};
use py_literals::place::Pos;
use rv_names::{Name, QName};
use sqlite_items::Items;
use std::alloc::Global;

/// A call of a nest.
#[derive(Drop)]
pub struct Call {
    /// The names of what is called.
    pub names: QName,
    /// The place of the last of them.
    pub at: Pos,
}

fn is_small(number: &WholeNumber) -> bool
    ensures { result ≡ is_small number.now }
{
    matches!(number.get(), 0..=999_999_999)
}

/// The name that an expression is.
fn name_of(expr: &Expr) -> Option<&Name>
    ensures { option_copied result ≡ (shape_of expr.now).name }
{
    match &expr.form {
        Form::Name(name) => Some(name),
        _ => None,
    }
}

/// Adds the name of an attribute.
fn push_member(step: &Step, names: &mut Vec<Name>) -> Result<(), Refusal>
    ensures { Gives (λ _. names.new.items) result (option_map (λ name. names.old.items ++ name ∷ []) (member_of (link_of step.now))) }
{
    match &step.form {
        StepForm::Attribute(name) => {
            names.push(name.copy()?)?;
            Ok(())
        }
        _ => Err(Refusal::NotCut),
    }
}

/// Adds the names of attributes.
fn push_members(steps: &[Step], names: &mut Vec<Name>) -> Result<(), Refusal>
    ensures { Gives (λ _. names.new.items) result (option_map (λ members. names.old.items ++ members) (members_in (map link_of steps.now))) }
{
    for step in steps {
        push_member(step, names)?;
    }
    Ok(())
}

/// The names of a name and attributes of it.
fn callee_names(alloc: Global, base: &Expr, members: &[Step]) -> Result<QName, Refusal>
    ensures { Gives (λ q. q) result (callee_names (shape_of base.now).name (map link_of members.now)) }
{
    match name_of(base) {
        Some(first) => {
            let mut names = Vec::new(alloc);
            names.push(first.copy()?)?;
            push_members(members, &mut names)?;
            Ok(QName::new(names))
        }
        None => Err(Refusal::NotCut),
    }
}

/// Adds a call of a name, or of attributes of it.
fn push_call(
    alloc: Global,
    at: Pos,
    base: &Expr,
    members: &[Step],
    calls: &mut Items<Call>,
) -> Result<(), Refusal>
    ensures { Gives (λ _. calls.new) result (option_map (λ names. calls.old ++ record { names = names; at = at } ∷ []) (callee_names (shape_of base.now).name (map link_of members.now))) }
{
    let names = callee_names(alloc, base, members)?;
    calls.push(Call { names, at })?;
    Ok(())
}

/// Adds the calls of the nest that the expression is, from the outside in.
#[cycle(nests)]
pub fn nest(alloc: Global, expr: &Expr, calls: &mut Items<Call>) -> Result<(), Refusal>
    ensures { Gives (λ _. calls.new) result (option_map (λ inner. calls.old ++ inner) (nest_of expr.now)) }
{
    match &expr.form {
        Form::Number(number) => {
            if is_small(number) {
                Ok(())
            } else {
                Err(Refusal::NotCut)
            }
        }
        Form::Text(_) => Ok(()),
        Form::Postfix(base, steps) => match steps.as_slice() {
            [members @ .., last] => {
                push_call(alloc, expr.anchor, base.get(), members, calls)?;
                within(alloc, last, calls)
            }
            [] => Err(Refusal::NotCut),
        },
        _ => Err(Refusal::NotCut),
    }
}

#[cycle(nests)]
fn within(alloc: Global, step: &Step, calls: &mut Items<Call>) -> Result<(), Refusal>
    ensures { Gives (λ _. calls.new) result (option_map (λ inner. calls.old ++ inner) (nest_within (link_of step.now))) }
{
    match &step.form {
        StepForm::Call(arguments) => match arguments.as_slice() {
            [] => Ok(()),
            [only] => argument(alloc, only, calls),
            _ => Err(Refusal::NotCut),
        },
        _ => Err(Refusal::NotCut),
    }
}

#[cycle(nests)]
fn argument(alloc: Global, given: &Argument, calls: &mut Items<Call>) -> Result<(), Refusal>
    ensures { Gives (λ _. calls.new) result (option_map (λ inner. calls.old ++ inner) (argument_nest given.now)) }
{
    match &given.keyword {
        Some(_) => Err(Refusal::NotCut),
        None => nest(alloc, &given.value, calls),
    }
}
