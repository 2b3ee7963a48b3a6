//! Models with `def`, by number.

ghost use Rattle.std.specs.Prelude.{◌≡◌, IfOk, map};
ghost use Rattle.pysa_models.specs.Models.{parameter_of, signature_of};
ghost use Rattle.pysa_models.specs.Views.{model_at};

use crate::declaration::{Parameter, Signature};
use crate::marks::{is_through, marks};
use crate::models::Placed;
use pysa_syntax::DeclParam;
use rv_names::{Memory, Name};
use sqlite_items::Items;
use std::alloc::Global;
use taint_config::Config;

fn copied(name: &Option<Name>) -> Result<Option<Name>, Memory>
    ensures { IfOk result (λ n. n ≡ name.now) }
{
    match name {
        Some(name) => Ok(Some(name.copy()?)),
        None => Ok(None),
    }
}

fn parameter(
    alloc: Global,
    config: &Config,
    leaf: u32,
    param: &DeclParam,
) -> Result<Parameter, Memory>
    ensures { IfOk result (λ p. p ≡ parameter_of config.now leaf param.now) }
{
    let name = copied(&param.name)?;
    let known = marks(alloc, config, leaf, param.marks.as_slice())?;
    let through = is_through(param.marks.as_slice());
    Ok(Parameter {
        kind: param.kind,
        name,
        at: param.at,
        marks: known,
        through,
    })
}

fn parameters(
    alloc: Global,
    config: &Config,
    leaf: u32,
    params: &[DeclParam],
) -> Result<Items<Parameter>, Memory>
    ensures { IfOk result (λ ps. ps ≡ map (parameter_of config.now leaf) params.now) }
{
    let mut parameters = Items::from_vec(Vec::with_capacity(alloc, params.len())?);
    for param in params {
        parameters.push(parameter(alloc, config, leaf, param)?)?;
    }
    Ok(parameters)
}

/// What a model with `def` declares, whose name is that leaf.
pub fn signature(
    alloc: Global,
    config: &Config,
    leaf: u32,
    model: &Placed<'_>,
) -> Result<Signature, Memory>
    ensures { IfOk result (λ s. s ≡ signature_of config.now leaf (model_at model.now)) }
{
    let path = model.path.copy()?;
    let parameters = parameters(alloc, config, leaf, model.decl.params.as_slice())?;
    let returned = marks(alloc, config, leaf, model.decl.marks.as_slice())?;
    Ok(Signature {
        path,
        skip: model.decl.skip,
        parameters,
        result: returned,
    })
}
