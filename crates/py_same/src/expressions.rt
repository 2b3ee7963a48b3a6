//! Expressions, and what they consist of. Only what nests recurses: lists are compared by loops.

ghost use Rattle.std.specs.Prelude.{◌≡◌, ◌↔◌, IsTrue};

use crate::leaves::{
    same_binary_operator, same_comparator, same_constant, same_number, same_optional_name,
    same_place, same_unary_operator,
};
use py_ast::{Argument, Compared, Expr, Form, Joined, Operand, Pair, Part, Step, StepForm};

/// Whether two expressions are the same. It stops at the first difference, and is linear in what comes before it.
#[cycle(same)]
pub fn same_expr(a: &Expr, b: &Expr) -> bool
    ensures { IsTrue result ↔ (a.now ≡ b.now) }
{
    same_place(a.node, b.node)
        && same_place(a.start, b.start)
        && same_place(a.anchor, b.anchor)
        && a.enclosed == b.enclosed
        && same_form(&a.form, &b.form)
}

#[cycle(same)]
fn same_form(a: &Form, b: &Form) -> bool
    ensures { IsTrue result ↔ (a.now ≡ b.now) }
{
    match a {
        Form::Name(x) => match b {
            Form::Name(y) => { x == y }
            _ => false,
        },
        Form::Number(x) => match b {
            Form::Number(y) => { same_number(x, y) }
            _ => false,
        },
        Form::Text(x) => match b {
            Form::Text(y) => { x == y }
            _ => false,
        },
        Form::Formatted(xs) => match b {
            Form::Formatted(ys) => { same_parts(xs.as_slice(), ys.as_slice()) }
            _ => false,
        },
        Form::Constant(x) => match b {
            Form::Constant(y) => { same_constant(*x, *y) }
            _ => false,
        },
        Form::Tuple(xs) => match b {
            Form::Tuple(ys) => { same_exprs(xs.as_slice(), ys.as_slice()) }
            _ => false,
        },
        Form::List(xs) => match b {
            Form::List(ys) => { same_exprs(xs.as_slice(), ys.as_slice()) }
            _ => false,
        },
        Form::Dictionary(xs) => match b {
            Form::Dictionary(ys) => { same_pairs(xs.as_slice(), ys.as_slice()) }
            _ => false,
        },
        Form::Conditional(x, condition, otherwise) => match b {
            Form::Conditional(y, c, o) => {
                same_expr(x.get(), y.get())
                    && same_expr(condition.get(), c.get())
                    && same_expr(otherwise.get(), o.get())
            }
            _ => false,
        },
        Form::Or(x, xs) => match b {
            Form::Or(y, ys) => {
                same_expr(x.get(), y.get()) && same_joined(xs.as_slice(), ys.as_slice())
            }
            _ => false,
        },
        Form::And(x, xs) => match b {
            Form::And(y, ys) => {
                same_expr(x.get(), y.get()) && same_joined(xs.as_slice(), ys.as_slice())
            }
            _ => false,
        },
        Form::Not(x) => match b {
            Form::Not(y) => { same_expr(x.get(), y.get()) }
            _ => false,
        },
        Form::Comparison(x, xs) => match b {
            Form::Comparison(y, ys) => {
                same_expr(x.get(), y.get()) && same_compared(xs.as_slice(), ys.as_slice())
            }
            _ => false,
        },
        Form::Binary(x, xs) => match b {
            Form::Binary(y, ys) => {
                same_expr(x.get(), y.get()) && same_operands(xs.as_slice(), ys.as_slice())
            }
            _ => false,
        },
        Form::Unary(operator, x) => match b {
            Form::Unary(o, y) => {
                same_unary_operator(*operator, *o) && same_expr(x.get(), y.get())
            }
            _ => false,
        },
        Form::Power(x, exponent) => match b {
            Form::Power(y, e) => {
                same_expr(x.get(), y.get()) && same_expr(exponent.get(), e.get())
            }
            _ => false,
        },
        Form::Postfix(x, xs) => match b {
            Form::Postfix(y, ys) => {
                same_expr(x.get(), y.get()) && same_steps(xs.as_slice(), ys.as_slice())
            }
            _ => false,
        },
    }
}

#[cycle(same)]
fn same_part(a: &Part, b: &Part) -> bool
    ensures { IsTrue result ↔ (a.now ≡ b.now) }
{
    match a {
        Part::Text(x) => match b {
            Part::Text(y) => { x == y }
            _ => false,
        },
        Part::Field(x) => match b {
            Part::Field(y) => { same_expr(x, y) }
            _ => false,
        },
    }
}

#[cycle(same)]
fn same_step_form(a: &StepForm, b: &StepForm) -> bool
    ensures { IsTrue result ↔ (a.now ≡ b.now) }
{
    match a {
        StepForm::Attribute(x) => match b {
            StepForm::Attribute(y) => { x == y }
            _ => false,
        },
        StepForm::Subscript(x) => match b {
            StepForm::Subscript(y) => { same_expr(x.get(), y.get()) }
            _ => false,
        },
        StepForm::Call(xs) => match b {
            StepForm::Call(ys) => { same_arguments(xs.as_slice(), ys.as_slice()) }
            _ => false,
        },
    }
}

#[cycle(same)]
fn same_exprs(a: &[Expr], b: &[Expr]) -> bool
    ensures { IsTrue result ↔ (a.now ≡ b.now) }
{
    let mut others = b;
    for one in a {
        match others {
            [other, rest @ ..] if same_expr(one, other) => others = rest,
            _ => return false,
        }
    }
    others.is_empty()
}

#[cycle(same)]
fn same_parts(a: &[Part], b: &[Part]) -> bool
    ensures { IsTrue result ↔ (a.now ≡ b.now) }
{
    let mut others = b;
    for one in a {
        match others {
            [other, rest @ ..] if same_part(one, other) => others = rest,
            _ => return false,
        }
    }
    others.is_empty()
}

#[cycle(same)]
fn same_pairs(a: &[Pair], b: &[Pair]) -> bool
    ensures { IsTrue result ↔ (a.now ≡ b.now) }
{
    let mut others = b;
    for one in a {
        match others {
            [other, rest @ ..]
                if same_expr(&one.key, &other.key) && same_expr(&one.value, &other.value) =>
                others = rest,
            _ => return false,
        }
    }
    others.is_empty()
}

#[cycle(same)]
fn same_joined(a: &[Joined], b: &[Joined]) -> bool
    ensures { IsTrue result ↔ (a.now ≡ b.now) }
{
    let mut others = b;
    for one in a {
        match others {
            [other, rest @ ..]
                if same_place(one.at, other.at) && same_expr(&one.value, &other.value) => others =
                rest,
            _ => return false,
        }
    }
    others.is_empty()
}

#[cycle(same)]
fn same_compared(a: &[Compared], b: &[Compared]) -> bool
    ensures { IsTrue result ↔ (a.now ≡ b.now) }
{
    let mut others = b;
    for one in a {
        match others {
            [other, rest @ ..]
                if same_comparator(one.comparator, other.comparator)
                    && same_place(one.at, other.at)
                    && same_expr(&one.value, &other.value) => others = rest,
            _ => return false,
        }
    }
    others.is_empty()
}

#[cycle(same)]
fn same_operands(a: &[Operand], b: &[Operand]) -> bool
    ensures { IsTrue result ↔ (a.now ≡ b.now) }
{
    let mut others = b;
    for one in a {
        match others {
            [other, rest @ ..]
                if same_binary_operator(one.operator, other.operator)
                    && same_place(one.at, other.at)
                    && same_expr(&one.value, &other.value) => others = rest,
            _ => return false,
        }
    }
    others.is_empty()
}

#[cycle(same)]
fn same_steps(a: &[Step], b: &[Step]) -> bool
    ensures { IsTrue result ↔ (a.now ≡ b.now) }
{
    let mut others = b;
    for one in a {
        match others {
            [other, rest @ ..]
                if same_place(one.node, other.node) && same_step_form(&one.form, &other.form) =>
                others = rest,
            _ => return false,
        }
    }
    others.is_empty()
}

/// Whether two lists of arguments are the same.
#[cycle(same)]
pub fn same_arguments(a: &[Argument], b: &[Argument]) -> bool
    ensures { IsTrue result ↔ (a.now ≡ b.now) }
{
    let mut others = b;
    for one in a {
        match others {
            [other, rest @ ..]
                if same_optional_name(&one.keyword, &other.keyword)
                    && same_expr(&one.value, &other.value) => others = rest,
            _ => return false,
        }
    }
    others.is_empty()
}
