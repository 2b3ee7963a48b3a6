//! What is declared of one name.

ghost use Rattle.std.specs.Prelude.{◌≡◌, ◌++◌, IfOk, OnOk};
ghost use Rattle.pysa_models.specs.Joined.{has_through, is_named, is_through_at, marks_named, parameter_marks, result_marks, skips_obscure};

use path_trees::Mark;
use py_literals::place::Pos;
use pysa_syntax::ParamKind;
use rv_names::{Memory, Name, Text};
use sqlite_items::Items;
use std::alloc::Global;

/// A parameter of a model, with its marks by number.
#[derive(Drop)]
pub struct Parameter {
    /// What it is: a parameter by name, or one of `*`, `/`, `*NAME` and `**NAME`.
    pub kind: ParamKind,
    /// Its name, which a bare `*` or `/` does not have.
    pub name: Option<Name>,
    /// The place of its first token: line and column from 1 on, the column in characters.
    pub at: Pos,
    /// Its marks of known kinds, in their order.
    pub marks: Items<Mark>,
    /// Whether `TaintInTaintOut` stands on it.
    pub through: bool,
}

/// A model with `def`.
#[derive(Drop)]
pub struct Signature {
    /// The file that the model stands in.
    pub path: Text,
    /// Whether `@SkipObscure` stands before it.
    pub skip: bool,
    /// Its parameters, in their order.
    pub parameters: Items<Parameter>,
    /// The marks of its result of known kinds, in their order.
    pub result: Items<Mark>,
}

/// What all models of one name declare.
#[derive(Drop)]
pub struct Declaration {
    /// Its models with `def`, in order of file and place.
    pub signatures: Items<Signature>,
    /// The marks of its reads (the sources) and of its writes (the sinks), in order of file and place.
    pub uses: Items<Mark>,
}

impl Declaration {
    /// Whether `@SkipObscure` stands before one of its models.
    pub fn skips_obscure(&self) -> bool
        ensures { result ≡ skips_obscure self.now }
    {
        self.signatures
            .as_slice()
            .iter()
            .any(|signature| signature.skip)
    }

    /// The marks of the parameter of that name, those of all its models together, in their order. Linear in the parameters
    /// and these marks.
    pub fn parameter_marks(&self, alloc: Global, name: &Name) -> Result<Items<Mark>, Memory>
        ensures { IfOk result (λ marks. marks ≡ parameter_marks name.now self.now) }
    {
        let mut marks = Items::new(alloc);
        for signature in self.signatures.as_slice() {
            push_named(name, signature.parameters.as_slice(), &mut marks)?;
        }
        Ok(marks)
    }

    /// Whether `TaintInTaintOut` stands on the parameter of that name, in one of its models.
    pub fn is_through(&self, name: &Name) -> bool
        ensures { result ≡ is_through_at name.now self.now }
    {
        self.signatures.as_slice().iter().any(|signature| has_through(
            name,
            signature.parameters.as_slice(),
        ))
    }

    /// The marks of the result, those of all its models together, in their order. Linear in the models and these marks.
    pub fn result_marks(&self, alloc: Global) -> Result<Items<Mark>, Memory>
        ensures { IfOk result (λ marks. marks ≡ result_marks self.now) }
    {
        let mut marks = Items::new(alloc);
        for signature in self.signatures.as_slice() {
            push_copies(signature.result.as_slice(), &mut marks)?;
        }
        Ok(marks)
    }
}

fn is_named(name: &Name, parameter: &Parameter) -> bool
    ensures { result ≡ is_named name.now parameter.now }
{
    match &parameter.name {
        Some(own) => own == name,
        None => false,
    }
}

fn has_through(name: &Name, parameters: &[Parameter]) -> bool
    ensures { result ≡ has_through name.now parameters.now }
{
    parameters
        .iter()
        .any(|parameter| is_named(name, parameter) && parameter.through)
}

fn push_copies(marks: &[Mark], copies: &mut Items<Mark>) -> Result<(), Memory>
    ensures { OnOk result (copies.new ≡ copies.old ++ marks.now) }
{
    for mark in marks {
        copies.push(mark.copy()?)?;
    }
    Ok(())
}

fn push_named(name: &Name, parameters: &[Parameter], marks: &mut Items<Mark>) -> Result<(), Memory>
    ensures { OnOk result (marks.new ≡ marks.old ++ marks_named name.now parameters.now) }
{
    for parameter in parameters {
        if is_named(name, parameter) {
            push_copies(parameter.marks.as_slice(), marks)?;
        }
    }
    Ok(())
}
