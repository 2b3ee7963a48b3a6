//! The function of `app.py` and its statements (Language Reference, 7.11 and 8.7).

ghost use Rattle.std.specs.Prelude.{◌≡◌, option_map};
ghost use Rattle.std.specs.List.{list_all};
ghost use Rattle.rv_names.specs.Keys.{bytes_equal};
ghost use Rattle.project.specs.Callables.{open_stmt};
ghost use Rattle.cut_form.specs.Answers.{Gives};
ghost use Rattle.cut_form.specs.Bodies.{app_of, body_of, defined_body, first_name, imports_os, is_bare, is_function_name, is_open, is_os, last_name, line_nest, line_nests, may_call, own_nest};
ghost use Rattle.cut_form.specs.Issues.{issues_of};

use crate::issues::push_issues;
use crate::nests::{Call, nest};
use crate::refusal::Refusal;
use py_ast::{Dotted, Expr, Function, Module, Stmt, StmtForm};
use py_literals::place::Pos;
use rv_names::{Name, Text};
use sqlite_items::Items;
use std::alloc::Global;

/// What `app.py` does.
#[derive(Drop)]
pub struct Body {
    /// The name of its function.
    pub function: Text,
    /// The places of the issues of its statements.
    pub places: Items<Pos>,
}

fn is_open(name: &Name) -> bool
    ensures { result ≡ is_open name.now }
{
    !name.as_str().starts_with("__")
}

fn is_function_name(name: &Name) -> bool
    ensures { result ≡ is_function_name name.now }
{
    is_open(name) && name.as_str() != "os"
}

fn are_open(names: &[Name]) -> bool
    ensures { result ≡ list_all is_open names.now }
{
    names.iter().all(|name| is_open(name))
}

fn is_first(name: &Name, names: &[Name]) -> bool
    ensures { result ≡ bytes_equal (first_name names.now) name.now }
{
    match names {
        [first, ..] => first == name,
        [] => name.as_str() == "",
    }
}

fn is_last(text: &str, names: &[Name]) -> bool
    ensures { result ≡ bytes_equal (last_name names.now) text.now }
{
    match names {
        [.., last] => last.as_str() == text,
        [] => text == "",
    }
}

/// Whether the function may make the call.
fn may_call(function: &Name, call: &Call) -> bool
    ensures { result ≡ may_call function.now call.now }
{
    let names = call.names.parts();
    are_open(names) && !is_first(function, names) && !is_last("append", names)
}

fn may_call_all(function: &Name, calls: &[Call]) -> bool
    ensures { result ≡ list_all (may_call function.now) calls.now }
{
    calls.iter().all(|call| may_call(function, call))
}

fn is_os(name: &Dotted) -> bool
    ensures { result ≡ is_os name.now }
{
    name.first.name.as_str() == "os" && name.others.is_empty()
}

fn imports_os(stmt: &Stmt) -> bool
    ensures { result ≡ imports_os (open_stmt stmt.now) }
{
    match &stmt.form {
        StmtForm::Import(modules) => match modules.as_slice() {
            [only] => is_os(&only.name) && only.alias.is_none(),
            _ => false,
        },
        _ => false,
    }
}

/// The nest that an expression is.
fn own_nest(alloc: Global, function: &Name, expr: &Expr) -> Result<Items<Call>, Refusal>
    ensures { Gives (λ calls. calls) result (own_nest function.now expr.now) }
{
    let mut calls = Items::new(alloc);
    nest(alloc, expr, &mut calls)?;
    if may_call_all(function, calls.as_slice()) {
        Ok(calls)
    } else {
        Err(Refusal::NotCut)
    }
}

fn line_nest(alloc: Global, function: &Name, stmt: &Stmt) -> Result<Items<Call>, Refusal>
    ensures { Gives (λ calls. calls) result (line_nest function.now (open_stmt stmt.now)) }
{
    match &stmt.form {
        StmtForm::Expression(expr) => own_nest(alloc, function, expr),
        _ => Err(Refusal::NotCut),
    }
}

/// The places of the issues of these statements, of which each is a nest.
fn line_places(alloc: Global, function: &Name, body: &[Stmt]) -> Result<Items<Pos>, Refusal>
    ensures { Gives (λ places. places) result (option_map issues_of (line_nests function.now body.now)) }
{
    let mut places = Items::new(alloc);
    for stmt in body {
        let calls = line_nest(alloc, function, stmt)?;
        push_issues(calls.as_slice(), &mut places)?;
    }
    Ok(places)
}

/// Whether the function has no decorator, parameter and annotation, and a body.
fn is_bare(function: &Function) -> bool
    ensures { result ≡ is_bare function.now }
{
    function.decorators.is_empty()
        && function.parameters.is_empty()
        && function.returns.is_none()
        && !function.body.is_empty()
}

fn body_of(alloc: Global, function: &Function) -> Result<Body, Refusal>
    ensures { Gives (λ body. body) result (body_of function.now) }
{
    let name = &function.name.name;
    if !is_bare(function) || !is_function_name(name) {
        return Err(Refusal::NotCut);
    }
    let places = line_places(alloc, name, function.body.as_slice())?;
    let function = name.to_text()?;
    Ok(Body { function, places })
}

fn defined_body(alloc: Global, stmt: &Stmt) -> Result<Body, Refusal>
    ensures { Gives (λ body. body) result (defined_body (open_stmt stmt.now)) }
{
    match &stmt.form {
        StmtForm::Function(function) => body_of(alloc, function),
        _ => Err(Refusal::NotCut),
    }
}

/// What a file does that imports `os` and defines a function. Linear in the file.
#[tactic(auto, unfolding(crate::specs::Bodies::app_of))]
pub fn app_of(alloc: Global, file: &Module) -> Result<Body, Refusal>
    ensures { Gives (λ body. body) result (app_of file.now) }
{
    match file.body.as_slice() {
        [first, second] => {
            if imports_os(first) {
                defined_body(alloc, second)
            } else {
                Err(Refusal::NotCut)
            }
        }
        _ => Err(Refusal::NotCut),
    }
}
