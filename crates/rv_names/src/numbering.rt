//! Numbers of qualified names.

ghost use Rattle.std.specs.Prelude.{◌≡◌, ◌↔◌, ◌<◌, ◌≤◌, ◌-◌, ◌^◌, ℕ, [], length, slice_get, option_copied, Contains, IsTrue, IfOk, OnOk, OnErr, IsOk, IfSome, IsNone, IfNone};
ghost use Rattle.rv_names.specs.Keys.{Parts};
ghost use Rattle.rv_names.specs.Numbering.{IsNumberOf, IsOneToOne, number_of, with_name};

use crate::{Memory, QName};
use indexmap::IndexSet;
use std::alloc::Global;
use std::marker::Model;

/// Numbers of qualified names, from 0 on in the order in which the names first came. No name has two numbers.
///
/// Contracts see it as the list of the names, in which each stands at its number. The names are found by their hashes.
#[derive(Drop)]
pub struct Names {
    known: IndexSet<QName>,
}

impl Model for Names {
    ghost use Rattle.std.specs.Prelude.{List};
    ghost use Rattle.rv_names.specs.Keys.{Parts};
    ghost use Rattle.rv_names.specs.Numbering.{IsNumbering};

    ghost Value = { List Parts };

    ghost view = { λ n. n.known.keys };

    ghost invariant = { λ n. IsNumbering n.known.keys };
}

impl Names {
    /// No names. It takes no memory.
    pub fn new(alloc: Global) -> Names
        ensures { result ≡ [] }
    {
        let known = IndexSet::new(alloc);
        Names { known }
    }

    /// How many names have a number.
    pub fn len(&self) -> usize
        ensures len { result ≡ length self.now }
        ensures small { result < 2 ^ 32 }
    {
        self.known.len()
    }

    /// Whether no name has a number.
    pub fn is_empty(&self) -> bool
        ensures { IsTrue result ↔ (self.now ≡ []) }
    {
        self.known.is_empty()
    }

    /// The number of the name, which gets the next one if it has none. A name that has a number needs no memory.
    pub fn number(&mut self, name: &QName) -> Result<u32, Memory>
        requires room { length self.old < 2 ^ 32 - 1 }
        ensures number { IfOk result (IsNumberOf self.new name.now) }
        ensures names { OnOk result (self.new ≡ with_name self.old name.now) }
        ensures kept { IfOk result (λ k. (j : ℕ) → IsNumberOf self.old name.now j → k ≡ j) }
        ensures next { IfOk result (λ k. ¬ (Contains self.old name.now) → k ≡ length self.old) }
        ensures known { Contains self.old name.now → IsOk result }
        ensures memory { OnErr result (self.new ≡ self.old) }
        ensures one_to_one { IsOneToOne self.new }
    {
        match self.find(name) {
            Some(k) => Ok(k),
            None => {
                let k = self.known.len();
                self.known.insert(name.copy()?)?;
                Ok(k as u32)
            }
        }
    }

    /// The name with this number: `None` exactly past the last number.
    pub fn name(&self, k: u32) -> Option<&QName>
        ensures name { option_copied result ≡ slice_get self.now k }
        ensures past { IsNone result ↔ (length self.now ≤ k) }
    {
        self.known.get_index(k as usize)
    }

    /// The number of the name: `None` exactly where it has none.
    pub fn find(&self, name: &QName) -> Option<u32>
        ensures value { result ≡ number_of self.now name.now }
        ensures number { IfSome result (IsNumberOf self.now name.now) }
        ensures absent { IfNone result (¬ (Contains self.now name.now)) }
        ensures one_to_one { IsOneToOne self.now }
    {
        match self.known.get_index_of(name) {
            Some(k) => Some(k as u32),
            None => None,
        }
    }
}
