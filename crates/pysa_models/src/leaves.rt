//! Leaves: the names that declare a mark of a known kind, by number.

ghost use Rattle.std.specs.Prelude.{◌≡◌, IfOk, map};
ghost use Rattle.std.specs.List.{list_any};
ghost use Rattle.pysa_models.specs.Leaves.{AreLeaves, AreMembers};
ghost use Rattle.pysa_models.specs.Marks.{is_known};
ghost use Rattle.pysa_models.specs.Models.{leaf_number, marks_in};
ghost use Rattle.pysa_models.specs.Views.{model_at};

use crate::arranging::arranged;
use crate::marks::has_known;
use crate::models::Placed;
use indexmap::IndexSet;
use pysa_syntax::{Decl, DeclParam};
use rv_names::{Memory, QName};
use std::alloc::Global;
use std::marker::Model;
use taint_config::Config;

/// The leaves, each at its number from 0 on. They are found by their hashes.
#[derive(Drop)]
pub struct Leaves {
    names: IndexSet<QName>,
}

impl Model for Leaves {
    ghost use Rattle.std.specs.Prelude.{List, ◌<◌, ◌^◌, length};
    ghost use Rattle.rv_names.specs.Keys.{Parts};

    ghost Value = { List Parts };

    ghost view = { λ l. l.names.keys };

    ghost invariant = { λ l. length l.names.keys < 2 ^ 32 };
}

impl Leaves {
    /// The leaves in their order.
    pub fn as_slice(&self) -> &[QName]
        ensures { result.now ≡ self.now }
    {
        self.names.as_slice()
    }

    /// The number of the leaf of that name, and 0 where the name is no leaf.
    pub fn number(&self, name: &QName) -> u32
        ensures { result ≡ leaf_number self.now name.now }
    {
        match self.names.get_index_of(name) {
            Some(place) => place as u32,
            None => 0,
        }
    }
}

fn has_known_parameter(config: &Config, params: &[DeclParam]) -> bool
    ensures { result ≡ list_any (λ p. list_any (is_known config.now) p.marks) params.now }
{
    params
        .iter()
        .any(|param| has_known(config, param.marks.as_slice()))
}

/// Whether a model declares a mark of a known kind, on a parameter or elsewhere.
#[tactic(auto, using(crate::proofs::Lists::known_in))]
fn declares_known(config: &Config, decl: &Decl) -> bool
    ensures { result ≡ list_any (is_known config.now) (marks_in decl.now) }
{
    has_known_parameter(config, decl.params.as_slice()) || has_known(config, decl.marks.as_slice())
}

/// The names that declare a mark of a known kind, in no order.
fn known_names(
    alloc: Global,
    config: &Config,
    models: &[Placed<'_>],
) -> Result<IndexSet<QName>, Memory>
    ensures { IfOk result (λ s. AreMembers config.now (map model_at models.now) s.keys) }
{
    let mut names = IndexSet::new(alloc);
    for model in models {
        if declares_known(config, model.decl) {
            names.insert(model.decl.name.copy()?)?;
        }
    }
    Ok(names)
}

/// The leaves of models. Want of memory also stands for 2 ^ 32 of them. It costs a sort of their names, which are nearly in
/// order before it.
pub fn leaves_of(alloc: Global, config: &Config, models: &[Placed<'_>]) -> Result<Leaves, Memory>
    ensures { IfOk result (λ l. AreLeaves config.now (map model_at models.now) l) }
{
    let arranged = arranged(alloc, models)?;
    let mut names = known_names(alloc, config, arranged.as_slice())?;
    names.sort()?;
    if names.len() > u32::MAX as usize {
        return Err(Memory);
    }
    Ok(Leaves { names })
}
