//! The trees of the parameters of a callable.

ghost use Rattle.std.specs.Prelude.{◌≡◌, ◌↔◌, IfOk, IsTrue, length};
ghost use Rattle.taint_model.specs.Lists.{AreTreesHeld, TreesBelow, empty_trees, joined_trees};

use path_trees::Tree;
use rv_names::Memory;
use std::alloc::Global;
use std::marker::Model;

/// A list of trees, the tree of a parameter at its place, from 0.
#[derive(Debug, Drop)]
pub struct Trees {
    trees: Vec<Tree>,
}

impl Model for Trees {
    ghost use Rattle.std.specs.Prelude.{List};
    ghost use Rattle.std.specs.Coded.{coded_list};
    ghost use Rattle.path_trees.specs.contracts.trees.Tree as tree_row;
    ghost use Rattle.path_trees.specs.Trees.{TreeMap};

    ghost Value = { List TreeMap };

    ghost coded = { coded_list (tree_row.the_row).coded };

    ghost view = { λ t. t.trees.items };
}

impl Trees {
    /// The trees of a vector, which it takes over. It takes no memory.
    pub fn of(trees: Vec<Tree>) -> Trees
        ensures { result ≡ trees.items }
    {
        Trees { trees }
    }

    /// As many empty trees. Linear in their number.
    pub fn empty(alloc: Global, count: usize) -> Result<Trees, Memory>
        ensures { IfOk result (λ ts. ts ≡ empty_trees count) }
    {
        let mut trees = Vec::new(alloc);
        for _ in 0..count {
            trees.push(Tree::empty(alloc))?;
        }
        Ok(Trees { trees })
    }

    /// Its trees, in order.
    pub fn as_slice(&self) -> &[Tree]
        ensures { result.now ≡ self.now }
    {
        &self.trees
    }

    /// Its trees as a vector, in order. It takes no memory.
    pub fn into_vec(self) -> Vec<Tree>
        ensures { result.items ≡ self }
    {
        let Trees { trees } = self;
        trees
    }

    /// Equal trees, whose texts both share. Linear in the number of entries.
    pub fn copy(&self) -> Result<Trees, Memory>
        ensures { IfOk result (λ ts. ts ≡ self.now) }
    {
        let trees = copies(*self.trees.allocator(), &self.trees)?;
        Ok(Trees { trees })
    }

    /// Whether the other has as many trees, and each of these is below the other's at its place. Linear in both.
    pub fn le(&self, other: &Trees) -> bool
        ensures { IsTrue result ↔ TreesBelow self.now other.now }
    {
        all_le(&self.trees, &other.trees)
    }

    /// The joins of the trees at each place. Linear in both.
    pub fn join(&self, other: &Trees) -> Result<Trees, Memory>
        requires { length self.now ≡ length other.now }
        ensures { IfOk result (λ ts. ts ≡ joined_trees self.now other.now) }
    {
        let trees = joins(*self.trees.allocator(), &self.trees, &other.trees)?;
        Ok(Trees { trees })
    }

    /// No tree has a distance above 63, and the entries of each are of finitely many, which a proof that counts them may use.
    pub fn know(&self)
        ensures { AreTreesHeld self.now }
    {
        know_all(&self.trees);
    }
}

fn copies(alloc: Global, trees: &[Tree]) -> Result<Vec<Tree>, Memory>
    ensures { IfOk result (λ v. v.items ≡ trees.now) }
{
    let mut copies = Vec::new(alloc);
    for tree in trees {
        let copy = tree.copy()?;
        copies.push(copy)?;
    }
    Ok(copies)
}

fn all_le(left: &[Tree], right: &[Tree]) -> bool
    ensures { IsTrue result ↔ TreesBelow left.now right.now }
{
    let mut rest = right;
    for tree in left {
        let [other, others @ ..] = rest else {
            return false;
        };
        if !tree.le(other) {
            return false;
        }
        rest = others;
    }
    rest.is_empty()
}

fn joins(alloc: Global, left: &[Tree], right: &[Tree]) -> Result<Vec<Tree>, Memory>
    requires { length left.now ≡ length right.now }
    ensures { IfOk result (λ v. v.items ≡ joined_trees left.now right.now) }
{
    let mut joins = Vec::new(alloc);
    let mut rest = right;
    for tree in left {
        let [other, others @ ..] = rest else {
            unreachable!()
        };
        let joined = tree.join(other)?;
        joins.push(joined)?;
        rest = others;
    }
    Ok(joins)
}

fn know_all(trees: &[Tree])
    ensures { AreTreesHeld trees.now }
{
    for tree in trees {
        tree.know();
    }
}
