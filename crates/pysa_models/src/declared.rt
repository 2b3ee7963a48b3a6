//! All that models declare.

ghost use Rattle.std.specs.Prelude.{◌≡◌, ◌↔◌, ◌++◌, [], length, slice_get, IfOk, IfSome, IsTrue, OnOk, option_copied};
ghost use Rattle.std.specs.Map.Iter.{deref_pair};
ghost use Rattle.std.specs.Option.{option_map};
ghost use Rattle.rv_names.specs.Keys.{Parts};
ghost use Rattle.pysa_models.specs.Leaves.{AreLeaves};
ghost use Rattle.pysa_models.specs.Models.{all_models, declaration};
ghost use Rattle.pysa_models.specs.Notes.{AreNotes};
ghost use Rattle.pysa_models.specs.Parts.{declared_of};

use crate::declaration::Declaration;
use crate::joining::joined;
use crate::leaves::{Leaves, leaves_of};
use crate::models::all_placed;
use crate::notes::notes;
use indexmap::IndexMap;
use py_ast::Remark;
use pysa_syntax::Decl;
use rv_names::{Memory, Name, QName, Text};
use sqlite_items::Items;
use std::alloc::Global;
use std::marker::Model;
use std::sync::Arc;
use taint_config::Config;

/// What models declare of each qualified name, with the numbers of kinds and leaves, and the notes on the models.
#[derive(Drop)]
pub struct Declared {
    kinds: Vec<Name>,
    leaves: Leaves,
    names: IndexMap<QName, Declaration>,
    notes: Vec<Remark>,
}

impl Model for Declared {
    ghost use Rattle.pysa_models.specs.Parts.{DeclaredParts};

    ghost Value = { DeclaredParts };

    ghost view = { λ d. record {
      kinds = d.kinds.items;
      leaves = d.leaves;
      names = d.names.entries;
      notes = d.notes.items;
    } };
}

impl Declared {
    /// The names of the kinds, each at its number from 0 on: the sources of the configuration, and then its sinks.
    pub fn kinds(&self) -> &[Name]
        ensures { result.now ≡ self.now.kinds }
    {
        self.kinds.as_slice()
    }

    /// The leaves, each at its number from 0 on: the qualified names that declare a mark of a known kind.
    pub fn leaves(&self) -> &[QName]
        ensures { result.now ≡ self.now.leaves }
    {
        self.leaves.as_slice()
    }

    /// What is declared of a name: `None` exactly where no model is of that name. It is found by the name's hash.
    pub fn of(&self, name: &QName) -> Option<&Declaration>
        ensures { option_copied result ≡ declared_of self.now name.now }
    {
        self.names.get(name)
    }

    /// How many names there are of which something is declared.
    pub fn len(&self) -> usize
        ensures { result ≡ length self.now.names }
    {
        self.names.len()
    }

    /// Whether nothing is declared of any name.
    pub fn is_empty(&self) -> bool
        ensures { IsTrue result ↔ (self.now.names ≡ []) }
    {
        self.names.is_empty()
    }

    /// The name at a place from 0 on, and what is declared of it: `None` exactly past the last. Each name has one place; the
    /// order of the places means nothing.
    pub fn entry(&self, place: usize) -> Option<(&QName, &Declaration)>
        ensures entry { option_map deref_pair result ≡ slice_get self.now.names place }
        ensures value { IfSome result (λ p. declared_of self.now p.0.now ≡ Some p.1.now) }
    {
        self.names.get_index(place)
    }

    /// The notes: one for each mark of an unknown kind, in order of path, line, column and kind.
    pub fn notes(&self) -> &[Remark]
        ensures { result.now ≡ self.now.notes }
    {
        self.notes.as_slice()
    }
}

fn push_names(names: &[Name], kinds: &mut Vec<Name>) -> Result<(), Memory>
    ensures { OnOk result (kinds.new.items ≡ kinds.old.items ++ names.now) }
{
    for name in names {
        kinds.push(name.copy()?)?;
    }
    Ok(())
}

/// The names of the sources, and then those of the sinks.
fn kinds(alloc: Global, config: &Config) -> Result<Vec<Name>, Memory>
    ensures { IfOk result (λ v. v.items ≡ config.now.sources ++ config.now.sinks) }
{
    let mut kinds = Vec::new(alloc);
    push_names(config.sources(), &mut kinds)?;
    push_names(config.sinks(), &mut kinds)?;
    Ok(kinds)
}

/// What the models of files declare, each file with its path, under a configuration (Pysa's documentation, "Models").
///
/// Models of one name are joined, in the order of the files and of their places in them. A mark of a kind that the
/// configuration doesn't declare is left out, with a note at the place of the kind's name; a kind that is declared only as a
/// sink is unknown as a source, and the other way round. `Memory` also stands for 2 ^ 32 leaves, which have no numbers. It
/// costs n log n in the models and their marks.
pub fn declare(
    alloc: Global,
    models: &[(Text, Arc<Items<Decl>>)],
    config: &Config,
) -> Result<Declared, Memory>
    ensures kinds { IfOk result (λ d. d.kinds ≡ config.now.sources ++ config.now.sinks) }
    ensures leaves { IfOk result (λ d. AreLeaves config.now (all_models models.now) d.leaves) }
    ensures names { IfOk result (λ d. (q : Parts) → declared_of d q ≡ declaration config.now d.leaves (all_models models.now) q) }
    ensures notes { IfOk result (λ d. AreNotes config.now (all_models models.now) d.notes) }
{
    let all = all_placed(alloc, models)?;
    let kinds = kinds(alloc, config)?;
    let leaves = leaves_of(alloc, config, all.as_slice())?;
    let names = joined(alloc, config, &leaves, all.as_slice())?;
    let notes = notes(alloc, config, all.as_slice())?;
    Ok(Declared {
        kinds,
        leaves,
        names,
        notes,
    })
}
