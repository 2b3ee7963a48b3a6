//! Nodes, made of their parts.

ghost use Rattle.std.specs.Prelude.{◌≡◌, ◌∷◌, [], List, Option, Some, None, IfOk};
ghost use Rattle.py_ast.specs.Trees.{tuple_of, parenthesized_of, given, optional_items, binary_of, comparison_of, and_of, or_of, power_of, conditional_of, postfix_of, argument_of, enclose};

use crate::steps::{boxed_three, boxed_two, replaced};
use crate::token::make_leaf;
use py_ast::{
    Argument, Compared, Expr, Form, Joined, NameAt, Operand, Step, anchor_after, given_after,
    node_after,
};
use py_literals::place::Pos;
use sqlite_items::{Boxed, Items};
use std::alloc::{AllocError, Global};

/// Expressions without parentheses: a tuple where there is a comma.
pub fn as_tuple(
    alloc: Global,
    first: Expr,
    others: Items<(Pos, Option<Expr>)>,
) -> Result<Expr, AllocError>
    ensures { IfOk result (λ e. e ≡ tuple_of (first, others)) }
{
    match others.get(0) {
        None => Ok(first),
        Some(comma) => {
            let node = comma.0;
            let start = first.start;
            let form = Form::Tuple(given_after(alloc, first, others)?);
            Ok(Expr {
                node,
                start,
                anchor: start,
                enclosed: false,
                form,
            })
        }
    }
}

/// An expression, which keeps its form, in parentheses.
fn enclosed(at: Pos, inner: Expr) -> Expr
    ensures { result ≡ enclose at inner }
{
    Expr {
        node: inner.node,
        start: at,
        anchor: inner.anchor,
        enclosed: true,
        form: inner.form,
    }
}

/// Expressions in parentheses, of which the first stands here.
pub fn as_parenthesized(
    alloc: Global,
    at: Pos,
    items: Option<(Expr, Items<(Pos, Option<Expr>)>)>,
) -> Result<Expr, AllocError>
    ensures { IfOk result (λ e. e ≡ parenthesized_of at items) }
{
    match items {
        None => Ok(make_leaf(at, Form::Tuple(Items::new(alloc)))),
        Some((first, others)) => {
            if others.is_empty() {
                Ok(enclosed(at, first))
            } else {
                Ok(make_leaf(at, Form::Tuple(given_after(alloc, first, others)?)))
            }
        }
    }
}

/// The items between two brackets.
pub fn as_items<A: Drop>(
    alloc: Global,
    items: Option<(A, Items<(Pos, Option<A>)>)>,
) -> Result<Items<A>, AllocError>
    ensures { IfOk result (λ all. all ≡ optional_items items) }
{
    match items {
        None => Ok(Items::new(alloc)),
        Some((first, others)) => given_after(alloc, first, others),
    }
}

/// Operands of one level of binary operators.
pub fn as_binary(alloc: Global, first: Expr, operands: Items<Operand>) -> Result<Expr, AllocError>
    ensures { IfOk result (λ e. e ≡ binary_of first operands) }
{
    match operands.get(0) {
        None => Ok(first),
        Some(operand) => {
            let node = operand.at;
            let start = first.start;
            let form = Form::Binary(Boxed::new(alloc, first)?, operands);
            Ok(Expr {
                node,
                start,
                anchor: start,
                enclosed: false,
                form,
            })
        }
    }
}

/// A chain of comparisons.
pub fn as_comparison(
    alloc: Global,
    first: Expr,
    others: Items<Compared>,
) -> Result<Expr, AllocError>
    ensures { IfOk result (λ e. e ≡ comparison_of first others) }
{
    match others.get(0) {
        None => Ok(first),
        Some(compared) => {
            let node = compared.at;
            let start = first.start;
            let form = Form::Comparison(Boxed::new(alloc, first)?, others);
            Ok(Expr {
                node,
                start,
                anchor: start,
                enclosed: false,
                form,
            })
        }
    }
}

/// Operands of `and`.
pub fn as_and(alloc: Global, first: Expr, others: Items<Joined>) -> Result<Expr, AllocError>
    ensures { IfOk result (λ e. e ≡ and_of first others) }
{
    match others.get(0) {
        None => Ok(first),
        Some(joined) => {
            let node = joined.at;
            let start = first.start;
            let form = Form::And(Boxed::new(alloc, first)?, others);
            Ok(Expr {
                node,
                start,
                anchor: start,
                enclosed: false,
                form,
            })
        }
    }
}

/// Operands of `or`.
pub fn as_or(alloc: Global, first: Expr, others: Items<Joined>) -> Result<Expr, AllocError>
    ensures { IfOk result (λ e. e ≡ or_of first others) }
{
    match others.get(0) {
        None => Ok(first),
        Some(joined) => {
            let node = joined.at;
            let start = first.start;
            let form = Form::Or(Boxed::new(alloc, first)?, others);
            Ok(Expr {
                node,
                start,
                anchor: start,
                enclosed: false,
                form,
            })
        }
    }
}

/// A base with its exponent, if it has one.
pub fn as_power(
    alloc: Global,
    base: Expr,
    exponent: Option<(Pos, Expr)>,
) -> Result<Expr, AllocError>
    ensures { IfOk result (λ e. e ≡ power_of base exponent) }
{
    match exponent {
        None => Ok(base),
        Some((node, exponent)) => {
            let start = base.start;
            let (base, exponent) = boxed_two(alloc, base, exponent)?;
            let form = Form::Power(base, exponent);
            Ok(Expr {
                node,
                start,
                anchor: start,
                enclosed: false,
                form,
            })
        }
    }
}

/// A value with the condition on which it is the value and the other value, if it has them.
pub fn as_conditional(
    alloc: Global,
    value: Expr,
    choice: Option<(Pos, Expr, Expr)>,
) -> Result<Expr, AllocError>
    ensures { IfOk result (λ e. e ≡ conditional_of value choice) }
{
    match choice {
        None => Ok(value),
        Some((node, condition, otherwise)) => {
            let start = value.start;
            let (value, condition, otherwise) = boxed_three(alloc, value, condition, otherwise)?;
            let form = Form::Conditional(value, condition, otherwise);
            Ok(Expr {
                node,
                start,
                anchor: start,
                enclosed: false,
                form,
            })
        }
    }
}

/// A primary and what is done to it.
pub fn as_postfix(alloc: Global, base: Expr, steps: Items<Step>) -> Result<Expr, AllocError>
    ensures { IfOk result (λ e. e ≡ postfix_of base steps) }
{
    if steps.is_empty() {
        return Ok(base);
    }
    let node = node_after(base.node, steps.as_slice());
    let anchor = anchor_after(base.anchor, steps.as_slice());
    let start = base.start;
    let form = Form::Postfix(Boxed::new(alloc, base)?, steps);
    Ok(Expr {
        node,
        start,
        anchor,
        enclosed: false,
        form,
    })
}

/// An argument: an expression, or a name and the value behind its `=`.
pub fn as_argument(first: Expr, keyword: Option<(NameAt, Expr)>) -> Argument
    ensures { result ≡ argument_of first keyword }
{
    let (keyword, value) = replaced(first, keyword);
    Argument { keyword, value }
}
