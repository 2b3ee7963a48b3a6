//! What a chain of steps makes of a primary: its number, its anchor, and whether it may be called.

ghost use Rattle.std.specs.Prelude.{◌≡◌};
ghost use Rattle.py_ast.specs.Trees.{open_step, callable_name, callable_step, callable_after, is_callee, node_after, anchor_in, anchor_after};

use crate::tree::{Expr, Form, Step, StepForm};
use py_literals::place::Pos;
use rv_names::Name;

/// Whether the name may be called: `__init__` may not.
fn is_callable_name(name: &Name) -> bool
    ensures { result ≡ callable_name name.now }
{
    name.as_str() != "__init__"
}

impl Step {
    /// The anchor of what the step makes of a primary with the anchor `before`: an attribute's name, a subscript's `[`, and
    /// of a call its callee's anchor.
    pub fn anchor(&self, before: Pos) -> Pos
        ensures { result ≡ anchor_in before self.now.node (open_step self.now) }
    {
        match &self.form {
            StepForm::Attribute(_) => self.node,
            StepForm::Subscript(_) => self.node,
            StepForm::Call(_) => before,
        }
    }

    /// Whether what the step makes may be called: an attribute that isn't named `__init__`.
    #[tactic(auto, unfolding(crate::specs::Trees::callable_step))]
    pub fn is_callable(&self) -> bool
        ensures { result ≡ callable_step (open_step self.now) }
    {
        match &self.form {
            StepForm::Attribute(name) => is_callable_name(name),
            StepForm::Subscript(_) => false,
            StepForm::Call(_) => false,
        }
    }
}

/// Whether what the last of the steps makes may be called, and `before` where there is none.
fn is_callable_after(before: bool, steps: &[Step]) -> bool
    ensures { result ≡ callable_after before steps.now }
{
    let mut callable = before;
    for step in steps {
        callable = step.is_callable();
    }
    callable
}

impl Expr {
    /// Whether the expression may be called: a name or an attribute that isn't named `__init__`, whatever parentheses
    /// stand round it.
    pub fn is_callee(&self) -> bool
        ensures { result ≡ is_callee self.now }
    {
        match &self.form {
            Form::Name(name) => is_callable_name(name),
            Form::Postfix(_, steps) => is_callable_after(false, steps.as_slice()),
            _ => false,
        }
    }
}

/// The number of the node that the last of the steps makes, and `before` where there is none. Linear in the steps.
pub fn node_after(before: Pos, steps: &[Step]) -> Pos
    ensures { result ≡ node_after before steps.now }
{
    let mut node = before;
    for step in steps {
        node = step.node;
    }
    node
}

/// The anchor of the node that the last of the steps makes of a primary with the anchor `before`: an attribute's last
/// name, a subscript's `[`, and of a call its callee's anchor. Linear in the steps.
pub fn anchor_after(before: Pos, steps: &[Step]) -> Pos
    ensures { result ≡ anchor_after before steps.now }
{
    let mut anchor = before;
    for step in steps {
        anchor = step.anchor(anchor);
    }
    anchor
}
