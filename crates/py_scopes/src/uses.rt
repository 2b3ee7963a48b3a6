//! The names that expressions use.

ghost use Rattle.std.specs.Prelude.{◌≡◌, ◌++◌, ◌∷◌, [], true, filter, OnOk, map};
ghost use Rattle.std.specs.List.{flat_map};
ghost use Rattle.py_scopes.specs.Listed.{is_how_wanted, is_wanted};
ghost use Rattle.py_ast.specs.Uses.{used, used_in, as_other, together, base_how, chained_how, calls_in, used_in_steps, used_in_part, used_in_argument, used_in_compared, used_in_joined, used_in_operand, used_in_pair, used_in_step};

use py_ast::{
    Argument, Compared, Expr, Form, How, Joined, Operand, Pair, Part, Step, StepForm, Use,
};
use py_literals::place::Pos;
use rv_names::{Memory, Name};
use sqlite_items::Items;

/// Which uses are listed.
#[derive(Clone, Copy)]
pub enum Wanted {
    /// All.
    All,
    /// Calls alone.
    Calls,
}

impl Wanted {
    fn has(self, how: How) -> bool
        ensures { result ≡ is_how_wanted self how }
    {
        match self {
            Wanted::All => true,
            Wanted::Calls => matches!(how, How::Called),
        }
    }
}

/// Whether the step is a call.
pub fn is_call(step: &Step) -> bool
    ensures { result ≡ (used_in_step step.now).0 }
{
    matches!(&step.form, StepForm::Call(_))
}

/// How a chain with these steps uses what it begins with.
pub fn base_how(steps: &[Step]) -> How
    ensures { result ≡ base_how (calls_in (map used_in_step steps.now)) }
{
    match steps {
        [] => How::Other,
        [first, ..] if is_call(first) => How::Called,
        [_, second, ..] if is_call(second) => How::Receiver,
        _ => How::Read,
    }
}

/// The same of a chain that is called itself.
fn called_how(steps: &[Step]) -> How
    ensures { result ≡ base_how (calls_in (map used_in_step steps.now) ++ true ∷ []) }
{
    match steps {
        [] => How::Called,
        [first, ..] if is_call(first) => How::Called,
        [_] => How::Receiver,
        [_, second, ..] if is_call(second) => How::Receiver,
        _ => How::Read,
    }
}

/// How a chain that is used so uses what it begins with.
fn chained_how(how: How, steps: &[Step]) -> How
    ensures { result ≡ chained_how how (calls_in (map used_in_step steps.now)) }
{
    match how {
        How::Called => called_how(steps),
        _ => base_how(steps),
    }
}

fn name(
    name: &Name,
    at: Pos,
    how: How,
    wanted: Wanted,
    found: &mut Items<Use>,
) -> Result<(), Memory>
    ensures { OnOk result (found.new ≡ found.old ++ filter (is_wanted wanted) (used name.now at how ∷ [])) }
{
    if wanted.has(how) {
        let name = name.copy()?;
        found.push(Use { name, at, how })?;
    }
    Ok(())
}

/// Whether the form of the expression, itself being used so, tells that it has no wanted uses.
#[inline(always)]
fn is_quiet(expr: &Expr, how: How, wanted: Wanted) -> bool
    ensures { result ≡ true → filter (is_wanted wanted) (used_in expr.now how) ≡ [] }
{
    match &expr.form {
        Form::Name(_) => !wanted.has(how),
        Form::Number(_) | Form::Text(_) | Form::Constant(_) => true,
        _ => false,
    }
}

/// Adds the wanted uses of names in the expression, itself being used so. Only what nests in the expression recurses.
#[cycle(uses)]
fn nested(expr: &Expr, how: How, wanted: Wanted, found: &mut Items<Use>) -> Result<(), Memory>
    ensures { OnOk result (found.new ≡ found.old ++ filter (is_wanted wanted) (used_in expr.now how)) }
{
    match &expr.form {
        Form::Name(text) => name(text, expr.node, how, wanted, found),
        Form::Number(_) | Form::Text(_) | Form::Constant(_) => Ok(()),
        Form::Formatted(fields) => parts(fields.as_slice(), wanted, found),
        Form::Tuple(items) | Form::List(items) => expressions(items.as_slice(), wanted, found),
        Form::Dictionary(items) => pairs(items.as_slice(), wanted, found),
        Form::Conditional(value, condition, otherwise) => {
            nested(value.get(), How::Other, wanted, found)?;
            nested(condition.get(), How::Other, wanted, found)?;
            nested(otherwise.get(), How::Other, wanted, found)
        }
        Form::Or(first, others) | Form::And(first, others) => {
            nested(first.get(), How::Other, wanted, found)?;
            joined(others.as_slice(), wanted, found)
        }
        Form::Not(operand) | Form::Unary(_, operand) => {
            nested(operand.get(), How::Other, wanted, found)
        }
        Form::Comparison(first, others) => {
            nested(first.get(), How::Other, wanted, found)?;
            compared(others.as_slice(), wanted, found)
        }
        Form::Binary(first, others) => {
            nested(first.get(), How::Other, wanted, found)?;
            operands(others.as_slice(), wanted, found)
        }
        Form::Power(base, exponent) => {
            nested(base.get(), How::Other, wanted, found)?;
            nested(exponent.get(), How::Other, wanted, found)
        }
        Form::Postfix(base, links) => {
            nested(
                base.get(),
                chained_how(how, links.as_slice()),
                wanted,
                found,
            )?;
            steps(links.as_slice(), wanted, found)
        }
    }
}

/// Adds the wanted uses of names in the expression, itself being used so.
#[inline(always)]
pub fn expression(
    expr: &Expr,
    how: How,
    wanted: Wanted,
    found: &mut Items<Use>,
) -> Result<(), Memory>
    ensures { OnOk result (found.new ≡ found.old ++ filter (is_wanted wanted) (used_in expr.now how)) }
{
    if is_quiet(expr, how, wanted) {
        return Ok(());
    }
    nested(expr, how, wanted, found)
}

#[cycle(uses)]
fn expressions(exprs: &[Expr], wanted: Wanted, found: &mut Items<Use>) -> Result<(), Memory>
    ensures { OnOk result (found.new ≡ found.old ++ filter (is_wanted wanted) (flat_map as_other (map used_in exprs.now))) }
{
    for expr in exprs {
        if !is_quiet(expr, How::Other, wanted) {
            nested(expr, How::Other, wanted, found)?;
        }
    }
    Ok(())
}

#[cycle(uses)]
fn parts(items: &[Part], wanted: Wanted, found: &mut Items<Use>) -> Result<(), Memory>
    ensures { OnOk result (found.new ≡ found.old ++ filter (is_wanted wanted) (together (map used_in_part items.now))) }
{
    for item in items {
        if let Part::Field(expr) = item {
            nested(expr, How::Other, wanted, found)?;
        }
    }
    Ok(())
}

#[cycle(uses)]
fn pairs(items: &[Pair], wanted: Wanted, found: &mut Items<Use>) -> Result<(), Memory>
    ensures { OnOk result (found.new ≡ found.old ++ filter (is_wanted wanted) (together (map used_in_pair items.now))) }
{
    for item in items {
        nested(&item.key, How::Other, wanted, found)?;
        nested(&item.value, How::Other, wanted, found)?;
    }
    Ok(())
}

#[cycle(uses)]
fn joined(items: &[Joined], wanted: Wanted, found: &mut Items<Use>) -> Result<(), Memory>
    ensures { OnOk result (found.new ≡ found.old ++ filter (is_wanted wanted) (together (map used_in_joined items.now))) }
{
    for item in items {
        nested(&item.value, How::Other, wanted, found)?;
    }
    Ok(())
}

#[cycle(uses)]
fn compared(items: &[Compared], wanted: Wanted, found: &mut Items<Use>) -> Result<(), Memory>
    ensures { OnOk result (found.new ≡ found.old ++ filter (is_wanted wanted) (together (map used_in_compared items.now))) }
{
    for item in items {
        nested(&item.value, How::Other, wanted, found)?;
    }
    Ok(())
}

#[cycle(uses)]
fn operands(items: &[Operand], wanted: Wanted, found: &mut Items<Use>) -> Result<(), Memory>
    ensures { OnOk result (found.new ≡ found.old ++ filter (is_wanted wanted) (together (map used_in_operand items.now))) }
{
    for item in items {
        nested(&item.value, How::Other, wanted, found)?;
    }
    Ok(())
}

#[cycle(uses)]
fn arguments(items: &[Argument], wanted: Wanted, found: &mut Items<Use>) -> Result<(), Memory>
    ensures { OnOk result (found.new ≡ found.old ++ filter (is_wanted wanted) (together (map used_in_argument items.now))) }
{
    for item in items {
        if !is_quiet(&item.value, How::Other, wanted) {
            nested(&item.value, How::Other, wanted, found)?;
        }
    }
    Ok(())
}

/// Adds the wanted uses of names in the steps of a chain.
#[cycle(uses)]
pub fn steps(items: &[Step], wanted: Wanted, found: &mut Items<Use>) -> Result<(), Memory>
    ensures { OnOk result (found.new ≡ found.old ++ filter (is_wanted wanted) (used_in_steps (map used_in_step items.now))) }
{
    for item in items {
        step(item, wanted, found)?;
    }
    Ok(())
}

#[cycle(uses)]
fn step(step: &Step, wanted: Wanted, found: &mut Items<Use>) -> Result<(), Memory>
    ensures { OnOk result (found.new ≡ found.old ++ filter (is_wanted wanted) ((used_in_step step.now).1)) }
{
    match &step.form {
        StepForm::Attribute(_) => Ok(()),
        StepForm::Subscript(index) => nested(index.get(), How::Other, wanted, found),
        StepForm::Call(given) => arguments(given.as_slice(), wanted, found),
    }
}
