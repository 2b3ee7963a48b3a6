//! The bindings of one scope, by name.

ghost use Rattle.std.specs.Prelude.{◌≡◌, IfOk, option_copied, None};
ghost use Rattle.py_ast.specs.ScopeFaults.{first_of, is_fixed_in};
ghost use Rattle.py_ast.specs.Owned.{is_bound_once};
ghost use Rattle.indexmap.specs.IndexMap.{get};
ghost use Rattle.rv_names.specs.Keys.{Bytes, bytes_equal};
ghost use Rattle.py_scopes.specs.Facts.{known, told, or_look, alone};
ghost use Rattle.py_scopes.specs.Names.{is_named, is_variable_of, only_binding, only_annotation};

use crate::facts::{Facts, Seen};
use crate::kinds::is_variable;
use indexmap::IndexMap;
use py_ast::Binding;
use rv_names::{Memory, Name};
use sqlite_items::Items;
use std::alloc::Global;
use std::marker::Model;

/// The bindings of one scope, in order of place, which contracts see as their list. What is asked of one name is found by its
/// hash, at no cost that grows with the bindings; where they are few, there are no hashes, and the list is searched.
#[derive(Drop)]
pub struct Scope {
    bindings: Items<Binding>,
    names: IndexMap<Name, Facts>,
}

impl Model for Scope {
    ghost use Rattle.std.specs.Prelude.{◌≡◌, ◌<◌, List, None, length};
    ghost use Rattle.indexmap.specs.IndexMap.{get};
    ghost use Rattle.rv_names.specs.Keys.{Bytes, bytes_equal};
    ghost use Rattle.py_ast.specs.declared.binding.Binding.{Binding};
    ghost use Rattle.py_scopes.specs.Facts.{told};

    ghost Value = { List Binding };

    ghost view = { λ s. s.bindings };

    ghost invariant = { λ s. 16 < length s.bindings → (n : Bytes) → get bytes_equal s.names n ≡ told n 0 None s.bindings };
}

/// Up to so many bindings a list is searched sooner than a table is made.
pub const FEW: usize = 16;

/// Whether one of the bindings is of the name. Linear in them.
pub fn is_named(bindings: &[Binding], name: &Name) -> bool
    ensures { result ≡ is_named name.now bindings.now }
{
    bindings.iter().any(|binding| binding.name == *name)
}

/// Whether one of them makes the name a variable. Linear in them.
fn is_variable_among(bindings: &[Binding], name: &Name) -> bool
    ensures { result ≡ is_variable_of name.now bindings.now }
{
    bindings.iter().any(|binding| binding.name == *name && is_variable(&binding.kind))
}

/// What the list says of the name. Linear in it.
fn searched(bindings: &[Binding], name: &Name) -> Facts
    ensures { result ≡ known (told name.now 0 None bindings.now) }
{
    let mut facts = Facts::none();
    for (place, binding) in bindings.iter().enumerate() {
        if binding.name == *name {
            facts = facts.with(place, binding);
        }
    }
    facts
}

/// What is known of the name.
fn known(names: &IndexMap<Name, Facts>, name: &Name) -> Facts
    ensures { result ≡ known (get bytes_equal names.now name.now) }
{
    match names.get(name) {
        None => Facts::none(),
        Some(facts) => *facts,
    }
}

/// What the list says of each name. Linear in it.
#[inline(never)]
fn table(alloc: Global, bindings: &[Binding]) -> Result<IndexMap<Name, Facts>, Memory>
    ensures { IfOk result (λ m. (n : Bytes) → get bytes_equal m n ≡ told n 0 None bindings.now) }
{
    let mut names = IndexMap::with_capacity(alloc, bindings.len())?;
    for (place, binding) in bindings.iter().enumerate() {
        let before = known(&names, &binding.name);
        names.insert(binding.name.copy()?, before.with(place, binding))?;
    }
    Ok(names)
}

impl Scope {
    /// The scope of these bindings. Linear in them.
    #[inline(always)]
    pub fn new(alloc: Global, bindings: Items<Binding>) -> Result<Scope, Memory>
        ensures { IfOk result (λ s. s ≡ bindings) }
    {
        if bindings.len() <= FEW {
            let names = IndexMap::new(alloc);
            Ok(Scope { bindings, names })
        } else {
            let names = table(alloc, bindings.as_slice())?;
            Ok(Scope { bindings, names })
        }
    }

    /// All bindings, in order of place.
    pub fn bindings(&self) -> &[Binding]
        ensures { result.now ≡ self.now }
    {
        self.bindings.as_slice()
    }

    fn facts(&self, name: &Name) -> Facts
        ensures { result ≡ known (told name.now 0 None self.now) }
    {
        if self.bindings.len() <= FEW {
            searched(self.bindings.as_slice(), name)
        } else {
            known(&self.names, name)
        }
    }

    /// What stands at the place.
    fn at(&self, place: Option<usize>) -> Option<&Binding>
        ensures { option_copied result ≡ or_look self.now place None }
    {
        match place {
            None => None,
            Some(place) => self.bindings.get(place),
        }
    }

    /// What stands at the place, where it is the only one.
    fn alone(&self, seen: Seen) -> Option<&Binding>
        ensures { option_copied result ≡ alone self.now seen }
    {
        if seen.again {
            None
        } else {
            self.at(seen.first)
        }
    }

    /// Whether the scope binds or annotates the name.
    #[tactic(auto, using(crate::proofs::FactLemmas::named_is))]
    pub fn has(&self, name: &Name) -> bool
        ensures { result ≡ is_named name.now self.now }
    {
        if self.bindings.len() <= FEW {
            return is_named(self.bindings.as_slice(), name);
        }
        self.facts(name).named
    }

    /// Whether one of its bindings fixes the name: a parameter, a `def`, a `class` or an import.
    #[tactic(auto, using(crate::proofs::FactLemmas::fixed_is))]
    pub fn is_fixed(&self, name: &Name) -> bool
        ensures { result ≡ is_fixed_in self.now name.now }
    {
        self.facts(name).fixed
    }

    /// Whether an assignment of any kind, a loop or an annotation names it.
    #[tactic(auto, using(crate::proofs::FactLemmas::variable_is))]
    pub fn is_variable(&self, name: &Name) -> bool
        ensures { result ≡ is_variable_of name.now self.now }
    {
        if self.bindings.len() <= FEW {
            return is_variable_among(self.bindings.as_slice(), name);
        }
        self.facts(name).variable
    }

    /// The first binding of the name, if it is bound.
    #[tactic(auto, using(crate::proofs::FactLemmas::first_is))]
    pub fn first(&self, name: &Name) -> Option<&Binding>
        ensures { option_copied result ≡ first_of name.now self.now }
    {
        self.at(self.facts(name).bound.first)
    }

    /// The only binding of the name: none where it isn't bound, or bound again.
    #[tactic(auto, using(crate::proofs::FactLemmas::only_is))]
    pub fn only(&self, name: &Name) -> Option<&Binding>
        ensures { option_copied result ≡ only_binding name.now self.now }
    {
        self.alone(self.facts(name).bound)
    }

    /// Whether the name has one binding.
    #[tactic(auto, using(crate::proofs::FactLemmas::bound_once))]
    pub fn is_bound_once(&self, name: &Name) -> bool
        ensures { result ≡ is_bound_once name.now self.now }
    {
        self.only(name).is_some()
    }

    /// The only annotation of the name: none where it has none, or another.
    #[tactic(auto, using(crate::proofs::FactLemmas::annotation_is))]
    pub fn annotation(&self, name: &Name) -> Option<&Binding>
        ensures { option_copied result ≡ only_annotation name.now self.now }
    {
        self.alone(self.facts(name).annotated)
    }
}
