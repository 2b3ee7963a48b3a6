//! Trees: finite maps from a spot to a distance.

ghost use Rattle.std.specs.Prelude.{◌≡◌, ◌↔◌, ◌≤◌, ◌<◌, Ok, Err, IfOk, OnOk, OnErr, IsTrue, true, false, length};
ghost use Rattle.std.specs.FinMap.{empty, entries};
ghost use Rattle.path_trees.specs.Trees.{AreNear, Below, IsHeldTree, least_of, pairs_of, with_entry};
ghost use Rattle.path_trees.specs.Operations.{image, images, joined, moved};
ghost use Rattle.path_trees.specs.Moves.{move_spot, shift};
ghost use Rattle.path_trees.specs.Room.{room};

use crate::merging::{covered, merged};
use crate::{Entry, Move};
use rv_names::Memory;
use std::alloc::Global;
use std::marker::Model;

/// A finite map from a spot to a distance of at most 63.
#[derive(Debug, Drop)]
pub struct Tree {
    entries: Vec<Entry>,
}

impl Model for Tree {
    ghost use Rattle.std.specs.FinMap as map;
    ghost use Rattle.std.specs.Coded.{coded_ℕ};
    ghost use Rattle.path_trees.specs.contracts.spots.Spot as spot_row;
    ghost use Rattle.path_trees.specs.Trees.{IsTree, TreeMap, pairs_of};

    ghost Value = { TreeMap };

    ghost coded = { map.code (spot_row.the_row).coded coded_ℕ };

    ghost view = { λ t. map.from_sorted (pairs_of t.entries.items) };

    ghost invariant = { λ t. IsTree t.entries.items };
}

impl Tree {
    /// The tree of no entries. It takes no memory.
    pub fn empty(alloc: Global) -> Tree
        ensures { result ≡ empty }
    {
        Tree {
            entries: Vec::new(alloc),
        }
    }

    /// The tree of one entry.
    pub fn of(alloc: Global, entry: Entry) -> Result<Tree, Memory>
        requires { entry.distance ≤ 63 }
        ensures { IfOk result (λ t. t ≡ with_entry empty entry.spot entry.distance) }
    {
        entry.spot.know();
        let mut entries = Vec::new(alloc);
        entries.push(entry)?;
        Ok(Tree { entries })
    }

    /// The tree of some entries, with the least distance at each spot. n log n comparisons and copies for n entries.
    pub fn from_entries(alloc: Global, entries: &[Entry]) -> Result<Tree, Memory>
        requires { AreNear entries.now }
        ensures { IfOk result (λ t. t ≡ least_of (pairs_of entries.now)) }
    {
        gathered(alloc, entries, &Move::Same)
    }

    /// Its entries, one for each of its spots.
    pub fn entries(&self) -> &[Entry]
        ensures all { pairs_of result.now ≡ entries self.now }
        ensures near { AreNear result.now }
    {
        &self.entries
    }

    /// Whether it has no entries.
    pub fn is_empty(&self) -> bool
        ensures { IsTrue result ↔ (self.now ≡ empty) }
    {
        let entries: &[Entry] = &self.entries;
        entries.is_empty()
    }

    /// An equal tree, whose texts both share. Linear in the number of entries.
    pub fn copy(&self) -> Result<Tree, Memory>
        ensures { IfOk result (λ t. t ≡ self.now) }
    {
        let entries = merged(*self.entries.allocator(), &self.entries, &[])?;
        Ok(Tree { entries })
    }

    /// Whether whatever stands in this tree stands in the other. Linear in both.
    pub fn le(&self, other: &Tree) -> bool
        ensures { IsTrue result ↔ Below self.now other.now }
    {
        covered(&self.entries, &other.entries)
    }

    /// The entries of both, with the least distance at each spot. Linear in both.
    pub fn join(&self, other: &Tree) -> Result<Tree, Memory>
        ensures { IfOk result (λ t. t ≡ joined self.now other.now) }
    {
        let entries = merged(*self.entries.allocator(), &self.entries, &other.entries)?;
        Ok(Tree { entries })
    }

    /// Joins the other tree to this one: false exactly where all of it stood already. Where there is no memory the tree
    /// stays as it was. Linear in both.
    pub fn join_in(&mut self, other: &Tree) -> Result<bool, Memory>
        ensures exact { OnOk result (self.new ≡ joined self.old other.now) }
        ensures same { result ≡ Ok false → self.new ≡ self.old }
        ensures stood { result ≡ Ok false → Below other.now self.old }
        ensures more { result ≡ Ok true → ¬ (Below other.now self.old) }
        ensures room { result ≡ Ok true → room self.new < room self.old }
        ensures err { OnErr result (self.new ≡ self.old) }
    {
        if other.le(self) {
            return Ok(false);
        }
        let joined = self.join(other)?;
        joined.know();
        *self = joined;
        Ok(true)
    }

    /// The tree with each entry moved, and the least distance at each spot. n log n for n entries.
    pub fn moved(&self, by: &Move) -> Result<Tree, Memory>
        ensures { IfOk result (λ t. t ≡ moved by.now self.now) }
    {
        gathered(*self.entries.allocator(), self.entries(), by)
    }

    /// The tree has entries of which there are finitely many, and no distance above 63.
    pub fn know(&self)
        ensures { IsHeldTree self.now }
    {
        let _entries = &self.entries;
    }
}

// The tree of some entries, each of them moved.
fn gathered(alloc: Global, entries: &[Entry], by: &Move) -> Result<Tree, Memory>
    requires { AreNear entries.now }
    ensures { IfOk result (λ t. t ≡ least_of (images by.now (pairs_of entries.now))) }
{
    match entries {
        [] => Ok(Tree::empty(alloc)),
        [entry] => one_moved(alloc, entry, by),
        _ => {
            let (front, back) = entries.split_at(entries.len() / 2);
            let front = gathered(alloc, front, by)?;
            let back = gathered(alloc, back, by)?;
            front.join(&back)
        }
    }
}

// The tree of one entry, moved.
fn one_moved(alloc: Global, entry: &Entry, by: &Move) -> Result<Tree, Memory>
    requires { entry.now.distance ≤ 63 }
    ensures { IfOk result (λ t. t ≡ least_of (image (move_spot by.now entry.now.spot) (shift by.now entry.now.distance))) }
{
    match entry.spot.moved(by)? {
        None => Ok(Tree::empty(alloc)),
        Some(spot) => {
            let distance = by.shift(entry.distance);
            Tree::of(alloc, Entry { spot, distance })
        }
    }
}
