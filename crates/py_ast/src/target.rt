//! What expressions are as targets of assignments (Language Reference, section 7.2).

ghost use Rattle.std.specs.Prelude.{◌≡◌};
ghost use Rattle.py_ast.specs.Trees.{open_step};
ghost use Rattle.py_ast.specs.Statements.{is_bare, are_names, tuple_target, step_target, chain_target, target_of, first_anchor, target_anchor};

use crate::statement::Target;
use crate::tree::{Expr, Form, Step, StepForm};
use py_literals::place::Pos;

/// Whether each is a name without parentheses round it.
fn are_names(exprs: &[Expr]) -> bool
    ensures { result ≡ are_names exprs.now }
{
    for expr in exprs {
        if !expr.is_bare() {
            return false;
        }
    }
    true
}

/// What the last of the steps makes of a primary as a target, and `before` where there is none.
fn chain_target(before: Target, steps: &[Step]) -> Target
    ensures { result ≡ chain_target before steps.now }
{
    let mut target = before;
    for step in steps {
        target = step.target();
    }
    target
}

impl Step {
    /// What the step makes of a primary as a target.
    pub fn target(&self) -> Target
        ensures { result ≡ step_target (open_step self.now) }
    {
        match &self.form {
            StepForm::Attribute(_) => Target::Variable,
            StepForm::Subscript(_) => Target::Place,
            StepForm::Call(_) => Target::Nothing,
        }
    }
}

/// Several names are a target, and nothing else with commas.
fn tuple_target(items: &[Expr]) -> Target
    ensures { result ≡ tuple_target items.now }
{
    match items {
        [_, _, ..] => {
            if are_names(items) {
                Target::Names
            } else {
                Target::Nothing
            }
        }
        _ => Target::Nothing,
    }
}

impl Expr {
    /// Whether the expression is a name without parentheses round it.
    pub fn is_bare(&self) -> bool
        ensures { result ≡ is_bare self.now }
    {
        !self.enclosed && matches!(&self.form, Form::Name(_))
    }

    /// What the expression is as a target. Linear in the items of a tuple, or the steps of a chain.
    pub fn target(&self) -> Target
        ensures { result ≡ target_of self.now }
    {
        if self.enclosed {
            return Target::Nothing;
        }
        match &self.form {
            Form::Name(_) => Target::Variable,
            Form::Postfix(_, steps) => chain_target(Target::Nothing, steps.as_slice()),
            Form::Tuple(items) => tuple_target(items.as_slice()),
            _ => Target::Nothing,
        }
    }

    /// Where a write to the expression is said to be: at its anchor, or of several names at the first.
    pub fn target_anchor(&self) -> Pos
        ensures { result ≡ target_anchor self.now }
    {
        match &self.form {
            Form::Tuple(items) => match items.as_slice() {
                [first, ..] => first.anchor,
                [] => self.anchor,
            },
            _ => self.anchor,
        }
    }
}
