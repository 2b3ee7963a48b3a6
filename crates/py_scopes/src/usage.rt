//! The uses of names in one body, by name.

ghost use Rattle.std.specs.Prelude.{◌≡◌, IfOk};
ghost use Rattle.indexmap.specs.IndexMap.{get};
ghost use Rattle.rv_names.specs.Keys.{bytes_equal};
ghost use Rattle.py_ast.specs.Owned.{keeps, keeps_list, all_used};
ghost use Rattle.py_scopes.specs.Kept.{kept, with_use, kept_in};

use indexmap::IndexMap;
use py_ast::{How, Use};
use rv_names::{Memory, Name};
use sqlite_items::Items;
use std::alloc::Global;
use std::marker::Model;

/// Whether all uses of a name keep its object, and whether they keep it where it is a list.
#[derive(Clone, Copy, Debug, PartialEq, Eq)]
pub struct Kept {
    object: bool,
    list: bool,
}

/// The uses of names in one body, which contracts see as their list. What is asked of one name is found by its hash.
#[derive(Drop)]
pub struct Usage {
    uses: Items<Use>,
    names: IndexMap<Name, Kept>,
}

impl Model for Usage {
    ghost use Rattle.std.specs.Prelude.{◌≡◌, List};
    ghost use Rattle.indexmap.specs.IndexMap.{get};
    ghost use Rattle.rv_names.specs.Keys.{Bytes, bytes_equal};
    ghost use Rattle.py_ast.specs.declared.binding.Use.{Use};
    ghost use Rattle.py_scopes.specs.Kept.{kept, kept_in};

    ghost Value = { List Use };

    ghost view = { λ u. u.uses };

    ghost invariant = { λ u. (n : Bytes) → kept (get bytes_equal u.names n) ≡ kept_in n u.uses };
}

/// Whether the use lets nobody keep the object that the name stands for.
fn keeps(how: How) -> bool
    ensures { result ≡ keeps how }
{
    match how {
        How::Read | How::Written | How::Iterated | How::Returned => true,
        _ => false,
    }
}

/// The same of a list.
fn keeps_list(how: How) -> bool
    ensures { result ≡ keeps_list how }
{
    match how {
        How::Appended => true,
        _ => keeps(how),
    }
}

impl Kept {
    /// With a further use.
    fn with(self, used: &Use) -> Kept
        ensures { result ≡ with_use used.now self }
    {
        Kept {
            object: self.object && keeps(used.how),
            list: self.list && keeps_list(used.how),
        }
    }
}

/// What is known of the name.
fn known(names: &IndexMap<Name, Kept>, name: &Name) -> Kept
    ensures { result ≡ kept (get bytes_equal names.now name.now) }
{
    match names.get(name) {
        None => Kept {
            object: true,
            list: true,
        },
        Some(kept) => *kept,
    }
}

impl Usage {
    /// Linear in the uses.
    pub fn new(alloc: Global, uses: Items<Use>) -> Result<Usage, Memory>
        ensures { IfOk result (λ u. u ≡ uses) }
    {
        let mut names = IndexMap::new(alloc);
        for used in uses.as_slice() {
            let before = known(&names, &used.name);
            names.insert(used.name.copy()?, before.with(used))?;
        }
        Ok(Usage { uses, names })
    }

    /// All uses.
    pub fn uses(&self) -> &[Use]
        ensures { result.now ≡ self.now }
    {
        self.uses.as_slice()
    }

    fn kept(&self, name: &Name) -> Kept
        ensures { result ≡ kept_in name.now self.now }
    {
        known(&self.names, name)
    }

    /// Whether no use of the name lets anybody keep its object.
    pub fn keeps(&self, name: &Name) -> bool
        ensures { result ≡ all_used keeps name.now self.now }
    {
        self.kept(name).object
    }

    /// The same of a list, to which values may be appended.
    pub fn keeps_list(&self, name: &Name) -> bool
        ensures { result ≡ all_used keeps_list name.now self.now }
    {
        self.kept(name).list
    }
}
