//! The names that statements use.

ghost use Rattle.std.specs.Prelude.{◌≡◌, ◌++◌, OnOk, map, filter};
ghost use Rattle.std.specs.List.{flat_map};
ghost use Rattle.rv_names.specs.Keys.{bytes_equal};
ghost use Rattle.py_ast.specs.Trees.{open_step};
ghost use Rattle.py_ast.specs.Uses.{together, calls_in, used_in_step, used_in_chain, used_in_target, target_how, value_how, is_append_attribute, takes_one, is_append, statement_how, used_in_statement, used_if_any, used_if_returned, used_in_parameter, used_in_stmt, used_in_branch};
ghost use Rattle.py_ast.specs.declared.statement.Function.{out-Function};
ghost use Rattle.py_scopes.specs.Listed.{is_wanted};

use crate::uses::{Wanted, base_how, expression, steps};
use py_ast::{Branch, Expr, Form, Function, How, Parameter, Step, StepForm, Stmt, StmtForm, Use};
use rv_names::Memory;
use sqlite_items::{Boxed, Items};

fn target_how(steps: &[Step]) -> How
    ensures { result ≡ target_how (calls_in (map used_in_step steps.now)) }
{
    match steps {
        [_] => How::Written,
        _ => base_how(steps),
    }
}

/// Whether the step is the attribute `append`.
fn is_append_attribute(step: &Step) -> bool
    ensures { result ≡ is_append_attribute (open_step step.now) }
{
    match &step.form {
        StepForm::Attribute(name) => name.as_str() == "append",
        _ => false,
    }
}

/// Whether the step is a call with one argument, which has no keyword.
fn takes_one(step: &Step) -> bool
    ensures { result ≡ takes_one (open_step step.now) }
{
    match &step.form {
        StepForm::Call(arguments) => match arguments.as_slice() {
            [argument] => !argument.has_keyword(),
            _ => false,
        },
        _ => false,
    }
}

fn is_append(steps: &[Step]) -> bool
    ensures { result ≡ is_append steps.now }
{
    match steps {
        [attribute, call] => is_append_attribute(attribute) && takes_one(call),
        _ => false,
    }
}

fn statement_how(steps: &[Step]) -> How
    ensures { result ≡ statement_how steps.now }
{
    if is_append(steps) {
        How::Appended
    } else {
        base_how(steps)
    }
}

fn chain(
    how: How,
    base: &Expr,
    links: &[Step],
    wanted: Wanted,
    found: &mut Items<Use>,
) -> Result<(), Memory>
    ensures { OnOk result (found.new ≡ found.old ++ filter (is_wanted wanted) (used_in_chain how base.now links.now)) }
{
    expression(base, how, wanted, found)?;
    steps(links, wanted, found)
}

fn target(expr: &Expr, wanted: Wanted, found: &mut Items<Use>) -> Result<(), Memory>
    ensures { OnOk result (found.new ≡ found.old ++ filter (is_wanted wanted) (used_in_target expr.now)) }
{
    match &expr.form {
        Form::Postfix(base, links) => {
            let links = links.as_slice();
            chain(target_how(links), base.get(), links, wanted, found)
        }
        _ => Ok(()),
    }
}

fn value_how(target: &Expr) -> How
    ensures { result ≡ value_how target.now }
{
    match &target.form {
        Form::Tuple(_) => How::Iterated,
        _ => How::Other,
    }
}

fn alone(expr: &Expr, wanted: Wanted, found: &mut Items<Use>) -> Result<(), Memory>
    ensures { OnOk result (found.new ≡ found.old ++ filter (is_wanted wanted) (used_in_statement expr.now)) }
{
    match &expr.form {
        Form::Postfix(base, links) => {
            let links = links.as_slice();
            chain(statement_how(links), base.get(), links, wanted, found)
        }
        _ => expression(expr, How::Other, wanted, found),
    }
}

fn if_any(expr: &Option<Expr>, wanted: Wanted, found: &mut Items<Use>) -> Result<(), Memory>
    ensures { OnOk result (found.new ≡ found.old ++ filter (is_wanted wanted) (used_if_any expr.now)) }
{
    match expr {
        None => Ok(()),
        Some(expr) => expression(expr, How::Other, wanted, found),
    }
}

fn if_boxed(
    expr: &Option<Boxed<Expr>>,
    wanted: Wanted,
    found: &mut Items<Use>,
) -> Result<(), Memory>
    ensures { OnOk result (found.new ≡ found.old ++ filter (is_wanted wanted) (used_if_any expr.now)) }
{
    match expr {
        None => Ok(()),
        Some(expr) => expression(expr.get(), How::Other, wanted, found),
    }
}

fn returned(expr: &Option<Expr>, wanted: Wanted, found: &mut Items<Use>) -> Result<(), Memory>
    ensures { OnOk result (found.new ≡ found.old ++ filter (is_wanted wanted) (used_if_returned expr.now)) }
{
    match expr {
        None => Ok(()),
        Some(expr) => expression(expr, How::Returned, wanted, found),
    }
}

fn parameters(items: &[Parameter], wanted: Wanted, found: &mut Items<Use>) -> Result<(), Memory>
    ensures { OnOk result (found.new ≡ found.old ++ filter (is_wanted wanted) (flat_map used_in_parameter items.now)) }
{
    for item in items {
        if_any(&item.annotation, wanted, found)?;
        if_any(&item.default, wanted, found)?;
    }
    Ok(())
}

/// What of a function stands in the scope round it.
fn signature(function: &Function, wanted: Wanted, found: &mut Items<Use>) -> Result<(), Memory>
    ensures { OnOk result (found.new ≡ found.old ++ filter (is_wanted wanted) (flat_map used_in_parameter (out-Function function.now).parameters ++ used_if_any (out-Function function.now).returns)) }
{
    parameters(function.parameters.as_slice(), wanted, found)?;
    if_boxed(&function.returns, wanted, found)
}

/// Adds the wanted uses of names in the statement. Only blocks in it recurse.
#[cycle(statements)]
fn statement(stmt: &Stmt, wanted: Wanted, found: &mut Items<Use>) -> Result<(), Memory>
    ensures { OnOk result (found.new ≡ found.old ++ filter (is_wanted wanted) (used_in_stmt stmt.now)) }
{
    match &stmt.form {
        StmtForm::Expression(expr) => alone(expr, wanted, found),
        StmtForm::Assign(place, value) => {
            target(place, wanted, found)?;
            expression(value, value_how(place), wanted, found)
        }
        StmtForm::Annotate(place, annotation, value) => {
            target(place, wanted, found)?;
            expression(annotation.get(), How::Other, wanted, found)?;
            if_boxed(value, wanted, found)
        }
        StmtForm::Augment(place, _, value) => {
            target(place, wanted, found)?;
            expression(value.get(), How::Other, wanted, found)
        }
        StmtForm::Assert(condition, message) => {
            expression(condition, How::Other, wanted, found)?;
            if_boxed(message, wanted, found)
        }
        StmtForm::Pass | StmtForm::Break | StmtForm::Continue => Ok(()),
        StmtForm::Import(_) | StmtForm::ImportFrom(_, _) => Ok(()),
        StmtForm::Return(value) => returned(value, wanted, found),
        StmtForm::If(first, others, otherwise) => {
            branch(first, wanted, found)?;
            branches(others.as_slice(), wanted, found)?;
            block(otherwise.as_slice(), wanted, found)
        }
        StmtForm::While(condition, body) => {
            expression(condition, How::Other, wanted, found)?;
            block(body.as_slice(), wanted, found)
        }
        StmtForm::For(_, items, body) => {
            expression(items, How::Iterated, wanted, found)?;
            block(body.as_slice(), wanted, found)
        }
        StmtForm::Function(function) => signature(function, wanted, found),
        StmtForm::Class(class) => block(class.body.as_slice(), wanted, found),
    }
}

/// Adds the wanted uses of names in the statements, those in their blocks too: of functions what stands in the scope round them, of
/// classes all. Linear in the trees.
#[cycle(statements)]
pub fn block(stmts: &[Stmt], wanted: Wanted, found: &mut Items<Use>) -> Result<(), Memory>
    ensures { OnOk result (found.new ≡ found.old ++ filter (is_wanted wanted) (together (map used_in_stmt stmts.now))) }
{
    for stmt in stmts {
        statement(stmt, wanted, found)?;
    }
    Ok(())
}

#[cycle(statements)]
fn branch(branch: &Branch, wanted: Wanted, found: &mut Items<Use>) -> Result<(), Memory>
    ensures { OnOk result (found.new ≡ found.old ++ filter (is_wanted wanted) (used_in_branch branch.now)) }
{
    expression(&branch.condition, How::Other, wanted, found)?;
    block(branch.body.as_slice(), wanted, found)
}

#[cycle(statements)]
fn branches(items: &[Branch], wanted: Wanted, found: &mut Items<Use>) -> Result<(), Memory>
    ensures { OnOk result (found.new ≡ found.old ++ filter (is_wanted wanted) (together (map used_in_branch items.now))) }
{
    for item in items {
        branch(item, wanted, found)?;
    }
    Ok(())
}
