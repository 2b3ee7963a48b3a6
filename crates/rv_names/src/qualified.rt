//! Qualified names: lists of names.

ghost use Rattle.std.specs.Prelude.{◌≡◌, ◌↔◌, IfOk, IsTrue, take};
ghost use Rattle.std.specs.List.{flat_map};
ghost use Rattle.std.specs.Fmt.{WritesOnOk};
ghost use Rattle.rv_names.specs.Keys.{parts_equal, after_dot};

use crate::{Memory, Name};
use std::alloc::AllocError;
use std::cmp::Ordering;
use std::fmt;
use std::hash::{Hash, Hasher};
use std::marker::Model;

/// A qualified name, as `package.module.Class`, which contracts see as the list of its names, the outermost first.
///
/// Qualified names are equal, and ordered, as the lists of their names are. It is printed with a dot between two names.
#[derive(Drop)]
pub struct QName {
    parts: Vec<Name>,
}

impl Model for QName {
    ghost use Rattle.rv_names.specs.Keys.{Parts};

    ghost Value = { Parts };

    ghost view = { λ q. q.parts.items };
}

impl QName {
    /// The qualified name of these names.
    pub fn new(parts: Vec<Name>) -> QName
        ensures { result ≡ parts.items }
    {
        QName { parts }
    }

    /// The same qualified name. It costs a copy of each name, and a list of them.
    pub fn copy(&self) -> Result<QName, Memory>
        ensures { IfOk result (λ q. q ≡ self.now) }
    {
        Ok(self.clone()?)
    }

    /// Its names, the outermost first.
    pub fn parts(&self) -> &[Name]
        ensures { result.now ≡ self.now }
    {
        self.parts.as_slice()
    }
}

impl Clone for QName {
    ghost use Rattle.std.specs.Prelude.{◌≡◌};

    ghost is_clone = { λ q copy. copy ≡ q };

    fn clone(&self) -> Result<QName, AllocError> {
        let mut parts = Vec::with_capacity(*self.parts.allocator(), self.parts.len())?;
        for name in &self.parts {
            parts.push(name.clone()?)?;
        }
        Ok(QName { parts })
    }
}

impl PartialEq for QName {
    ghost use Rattle.std.specs.Cmp.Rules.{comparing};
    ghost use Rattle.std.proofs.Common.{rules};
    ghost use Rattle.rv_names.specs.Keys.{parts_equal};

    ghost eq = { parts_equal };

    ghost laws = { Prim.search (comparing, rules) };

    fn eq(&self, other: &QName) -> bool
        ensures value { result ≡ parts_equal self.now other.now }
        ensures same { IsTrue result ↔ (self.now ≡ other.now) }
    {
        self.parts == other.parts
    }
}

impl Eq for QName {
    ghost use Rattle.std.specs.Cmp.Rules.{comparing};
    ghost use Rattle.std.proofs.Common.{rules};

    ghost laws = { Prim.search (comparing, rules) };
}

impl Ord for QName {
    ghost use Rattle.std.specs.Cmp.Rules.{comparing};
    ghost use Rattle.std.specs.Cmp.Lexicographic.{lists_ties, texts_ties};
    ghost use Rattle.std.proofs.Common.{rules};
    ghost use Rattle.rv_names.specs.Keys.{parts_order, bytes_order};

    ghost cmp = { parts_order };

    ghost total = { Prim.search (comparing, rules) };

    ghost matches_partial_cmp = { Prim.search (comparing, rules) };

    ghost matches_eq = { lists_ties bytes_order texts_ties };

    fn cmp(&self, other: &QName) -> Ordering {
        self.parts.cmp(&other.parts)
    }
}

impl PartialOrd for QName {
    ghost use Rattle.std.specs.Ordering.{as_partial_cmp};
    ghost use Rattle.std.specs.Prelude.{refl};
    ghost use Rattle.std.specs.Cmp.{partial_order_from_agreeing_total};
    ghost use Rattle.std.specs.Cmp.Lexicographic.{lists_ties, texts_ties};
    ghost use Rattle.std.specs.Cmp.Rules.{comparing};
    ghost use Rattle.std.proofs.Common.{rules};
    ghost use Rattle.rv_names.specs.Keys.{parts_order, bytes_order};

    ghost partial_cmp = { as_partial_cmp parts_order };

    ghost laws = { partial_order_from_agreeing_total parts_order (Prim.search (comparing, rules)) (λ x y. refl) (lists_ties bytes_order texts_ties) };

    fn partial_cmp(&self, other: &QName) -> Option<Ordering> {
        Some(self.cmp(other))
    }
}

impl Hash for QName {
    ghost use Rattle.std.specs.Hash as fed;
    ghost use Rattle.std.specs.Hash.{items_Alike, same_Alike};
    ghost use Rattle.std.specs.Cmp.Lexicographic.{bytes_decides};

    ghost hash_input = { fed.slice fed.str };

    ghost respects_eq = { (items_Alike (same_Alike fed.str bytes_decides)).fed };

    fn hash<H: Hasher>(&self, state: &mut H) {
        self.parts.hash(state);
    }
}

/// Writes a dot before each of the names.
fn write_after_dots<W: fmt::Write>(f: &mut fmt::Formatter<W>, names: &[Name]) -> fmt::Result
    ensures { WritesOnOk W.write_str_gives f.old result (flat_map after_dot names.now) f.new }
{
    for name in names {
        f.write_str(".")?;
        f.write_str(name.as_str())?;
    }
    Ok(())
}

impl fmt::Display for QName {
    ghost use Rattle.std.specs.Prelude.{Some};
    ghost use Rattle.rv_names.specs.Keys.{dotted};

    ghost output = { λ q. Some (dotted q) };

    fn fmt<W: fmt::Write>(&self, f: &mut fmt::Formatter<W>) -> fmt::Result {
        match self.parts.split_first() {
            None => Ok(()),
            Some((first, rest)) => {
                f.write_str(first.as_str())?;
                write_after_dots(f, rest)
            }
        }
    }
}

impl fmt::Debug for QName {
    fn fmt<W: fmt::Write>(&self, f: &mut fmt::Formatter<W>) -> fmt::Result {
        fmt::Debug::fmt(&self.parts, f)
    }
}
