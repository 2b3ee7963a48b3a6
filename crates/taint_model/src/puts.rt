//! What a callable puts into cells.

ghost use Rattle.std.specs.Prelude.{◌≡◌, ◌<◌, ◌↔◌, Ok, IfOk, OnOk, OnErr, IsTrue, false, true};
ghost use Rattle.std.specs.Option.{option_copied};
ghost use Rattle.std.specs.FinMap.{empty, entries, get, insert};
ghost use Rattle.path_trees.specs.Trees.{Below};
ghost use Rattle.path_trees.specs.declared.moves.Move.TheVariants.{Bump};
ghost use Rattle.path_trees.specs.Operations.{joined, moved};
ghost use Rattle.taint_model.specs.Puts.{ArePutsHeld, PutsBelow, cells_at, joined_all, joined_puts, put_room, tree_at, with_put};

use path_trees::{Step, Tree, bump};
use rv_names::Memory;
use std::alloc::Global;
use std::collections::BTreeMap;
use std::collections::btree_map::Iter;
use std::marker::Model;

/// A finite map from a cell to a tree that has entries. The tree of a cell that is missing is the empty one.
#[derive(Debug, Drop)]
pub struct Puts {
    alloc: Global,
    trees: BTreeMap<Step, Tree>,
}

impl Model for Puts {
    ghost use Rattle.std.specs.FinMap as map;
    ghost use Rattle.path_trees.specs.contracts.steps.Step as step_row;
    ghost use Rattle.path_trees.specs.contracts.trees.Tree as tree_row;
    ghost use Rattle.taint_model.specs.Puts.{IsPuts, PutMap};

    ghost Value = { PutMap };

    ghost coded = { map.code (step_row.the_row).coded (tree_row.the_row).coded };

    ghost view = { λ p. map.from_sorted p.trees.entries };

    ghost invariant = { λ p. IsPuts p.trees.entries };
}

impl Puts {
    /// No cells. It takes no memory.
    pub fn empty(alloc: Global) -> Puts
        ensures { result ≡ empty }
    {
        Puts {
            alloc,
            trees: BTreeMap::new(alloc),
        }
    }

    /// Whether there are no cells.
    pub fn is_empty(&self) -> bool
        ensures { IsTrue result ↔ (self.now ≡ empty) }
    {
        self.trees.is_empty()
    }

    /// The tree of a cell, if anything is put there. It compares with about log n cells of n.
    pub fn get(&self, cell: &Step) -> Option<&Tree>
        ensures { option_copied result ≡ get self.now cell.now }
    {
        self.trees.get(cell)
    }

    /// The cells with their trees, in the order of the cells.
    pub fn iter(&self) -> Iter<'_, Step, Tree>
        ensures { result ≡ entries self.now }
    {
        self.trees.iter()
    }

    /// Joins a tree to that of a cell: false exactly where all of it stood there already. Where there is no memory the puts
    /// stay as they were. It compares with about log n cells of n, and is linear in the two trees.
    pub fn put(&mut self, cell: &Step, tree: &Tree) -> Result<bool, Memory>
        ensures exact { OnOk result (self.new ≡ with_put self.old cell.now tree.now) }
        ensures same { result ≡ Ok false → self.new ≡ self.old }
        ensures stood { result ≡ Ok false → Below tree.now (tree_at self.old cell.now) }
        ensures more { result ≡ Ok true → ¬ (Below tree.now (tree_at self.old cell.now)) }
        ensures room { result ≡ Ok true → put_room self.new < put_room self.old }
        ensures err { OnErr result (self.new ≡ self.old) }
    {
        self.know();
        if self.has(cell, tree) {
            return Ok(false);
        }
        let joined = self.joined_at(cell, tree)?;
        let key = cell.copy()?;
        self.insert(key, joined)?;
        self.know();
        Ok(true)
    }

    /// Equal puts, whose texts both share. n log n comparisons for n cells, and linear in the number of entries.
    pub fn copy(&self) -> Result<Puts, Memory>
        ensures { IfOk result (λ p. p ≡ self.now) }
    {
        let mut copy = Puts::empty(self.alloc);
        copy.put_all(self)?;
        Ok(copy)
    }

    /// Whether the tree of each cell is below its tree in the other. n log m comparisons for n cells and m of the other, and
    /// linear in the number of entries.
    pub fn le(&self, other: &Puts) -> bool
        ensures { IsTrue result ↔ PutsBelow self.now other.now }
    {
        for (cell, tree) in &self.trees {
            if !other.has(cell, tree) {
                return false;
            }
        }
        true
    }

    /// The cells of both, each with the join of its two trees. n log n comparisons for n cells, and linear in the number of
    /// entries.
    pub fn join(&self, other: &Puts) -> Result<Puts, Memory>
        ensures { IfOk result (λ p. p ≡ joined_puts self.now other.now) }
    {
        let mut joined = self.copy()?;
        joined.put_all(other)?;
        Ok(joined)
    }

    /// What is found at a step if it was put into a cell: the trees of all cells that meet the step, each distance one more
    /// and at most 63, joined. Of n cells it compares with about log n, and with all at `Any`, which meets each key; and it is
    /// n log n in the entries of those that meet the step.
    pub fn cells_at(&self, step: &Step) -> Result<Tree, Memory>
        ensures { IfOk result (λ t. t ≡ cells_at self.now step.now) }
    {
        match step {
            Step::Attr(_) => self.farther(step),
            Step::Key(_) => {
                let here = self.farther(step)?;
                let any = self.farther(&Step::Any)?;
                here.join(&any)
            }
            Step::Any => self.farther_all(step),
            Step::Keys => self.farther(step),
        }
    }

    /// No cell has the empty tree, and the cells and the entries of each tree are of finitely many, which a proof that counts
    /// them may use.
    pub fn know(&self)
        ensures { ArePutsHeld self.now }
    {
        let _trees = &self.trees;
    }

    // Whether a tree is below that of a cell.
    fn has(&self, cell: &Step, tree: &Tree) -> bool
        ensures { IsTrue result ↔ Below tree.now (tree_at self.now cell.now) }
    {
        match self.get(cell) {
            None => tree.is_empty(),
            Some(known) => tree.le(known),
        }
    }

    // The tree of a cell, with another one joined to it.
    fn joined_at(&self, cell: &Step, tree: &Tree) -> Result<Tree, Memory>
        ensures { IfOk result (λ t. t ≡ joined (tree_at self.now cell.now) tree.now) }
    {
        match self.get(cell) {
            None => tree.copy(),
            Some(known) => known.join(tree),
        }
    }

    // The tree of a cell, each distance one more.
    fn farther(&self, cell: &Step) -> Result<Tree, Memory>
        ensures { IfOk result (λ t. t ≡ moved Bump (tree_at self.now cell.now)) }
    {
        match self.get(cell) {
            None => Ok(Tree::empty(self.alloc)),
            Some(tree) => bump(tree),
        }
    }

    // The trees of all cells that meet a step, each distance one more, joined.
    fn farther_all(&self, step: &Step) -> Result<Tree, Memory>
        ensures { IfOk result (λ t. t ≡ cells_at self.now step.now) }
    {
        let mut found = Vec::new(self.alloc);
        for (cell, tree) in &self.trees {
            if cell.meets(step) {
                let farther = bump(tree)?;
                found.push(farther)?;
            }
        }
        joined_all(self.alloc, &found)
    }

    // Gives a cell a tree in place of the one that it has.
    fn insert(&mut self, cell: Step, tree: Tree) -> Result<(), Memory>
        requires { ¬ (tree ≡ empty) }
        ensures ok { OnOk result (self.new ≡ insert self.old cell tree) }
        ensures err { OnErr result (self.new ≡ self.old) }
    {
        cell.know();
        tree.know();
        self.trees.insert(cell, tree)?;
        Ok(())
    }

    // Joins the tree of each cell of the other to that of the cell.
    fn put_all(&mut self, other: &Puts) -> Result<(), Memory>
        ensures { OnOk result (self.new ≡ joined_puts self.old other.now) }
    {
        self.know();
        for (cell, tree) in &other.trees {
            self.put(cell, tree)?;
        }
        Ok(())
    }
}

// The join of some trees. n log n for n entries.
fn joined_all(alloc: Global, trees: &[Tree]) -> Result<Tree, Memory>
    ensures { IfOk result (λ t. t ≡ joined_all trees.now) }
{
    match trees {
        [] => Ok(Tree::empty(alloc)),
        [tree] => tree.copy(),
        _ => {
            let (front, back) = trees.split_at(trees.len() / 2);
            let front = joined_all(alloc, front)?;
            let back = joined_all(alloc, back)?;
            front.join(&back)
        }
    }
}
