//! The models of each name, joined.

ghost use Rattle.std.specs.Prelude.{◌≡◌, IfOk, OnOk, map};
ghost use Rattle.indexmap.specs.IndexMap.{get};
ghost use Rattle.rv_names.specs.Keys.{Parts, parts_equal};
ghost use Rattle.pysa_models.specs.Models.{declaration};
ghost use Rattle.pysa_models.specs.Steps.{joined_at, nothing, with_model};
ghost use Rattle.pysa_models.specs.Views.{model_at};

use crate::declaration::Declaration;
use crate::leaves::Leaves;
use crate::marks::push_marks;
use crate::models::Placed;
use crate::signatures::signature;
use indexmap::IndexMap;
use rv_names::{Memory, QName};
use sqlite_items::Items;
use std::alloc::Global;
use taint_config::Config;

/// Adds what one more model of a name declares, whose name is that leaf.
fn add_model(
    alloc: Global,
    config: &Config,
    leaf: u32,
    model: &Placed<'_>,
    declaration: &mut Declaration,
) -> Result<(), Memory>
    ensures { OnOk result (declaration.new ≡ with_model config.now leaf declaration.old (model_at model.now)) }
{
    if model.decl.callable {
        declaration
            .signatures
            .push(signature(alloc, config, leaf, model)?)?;
        Ok(())
    } else {
        push_marks(
            config,
            leaf,
            model.decl.marks.as_slice(),
            &mut declaration.uses,
        )
    }
}

/// A declaration without models, with room for what this model adds, since most names have one.
fn nothing(alloc: Global, model: &Placed<'_>) -> Result<Declaration, Memory>
    ensures { IfOk result (λ d. d ≡ nothing) }
{
    let signatures = model.decl.callable as usize;
    Ok(Declaration {
        signatures: Items::from_vec(Vec::with_capacity(alloc, signatures)?),
        uses: Items::new(alloc),
    })
}

/// Joins a model with the earlier ones of its name, which one lookup finds.
fn join(
    alloc: Global,
    config: &Config,
    leaves: &Leaves,
    model: &Placed<'_>,
    names: &mut IndexMap<QName, Declaration>,
) -> Result<(), Memory>
    ensures { OnOk result ((q : Parts) → get parts_equal names.new q ≡ joined_at config.now leaves.now (model_at model.now) q (get parts_equal names.old q)) }
{
    let name = &model.decl.name;
    let leaf = leaves.number(name);
    let nothing = nothing(alloc, model)?;
    let declaration = names.entry(name.copy()?)?.or_insert(nothing);
    add_model(alloc, config, leaf, model, declaration)?;
    Ok(())
}

/// What is declared of each name. Linear in the models.
pub fn joined(
    alloc: Global,
    config: &Config,
    leaves: &Leaves,
    models: &[Placed<'_>],
) -> Result<IndexMap<QName, Declaration>, Memory>
    ensures { IfOk result (λ m. (q : Parts) → get parts_equal m q ≡ declaration config.now leaves.now (map model_at models.now) q) }
{
    let mut names = IndexMap::new(alloc);
    for model in models {
        join(alloc, config, leaves, model, &mut names)?;
    }
    Ok(names)
}
