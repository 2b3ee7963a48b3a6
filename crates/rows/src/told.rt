//! Models that are kept in lists.

ghost use Rattle.std.specs.Prelude.{◌≡◌, IfOk, MatchOption};
ghost use Rattle.std.specs.FinMap.{empty};
ghost use Rattle.path_trees.specs.Steps.{meets};
ghost use Rattle.rows.specs.Families.{IsJoinOfCells};
ghost use Rattle.rows.specs.Told.{callee_family, callee_of};

use crate::{Inputs, Place, PutTree};
use path_trees::{Step, Tree, bump};
use rv_names::Memory;
use std::alloc::Global;

/// The trees of a callee: of its result, and of what is wanted of its parameters, by their numbers.
#[derive(Debug, Drop)]
pub struct CalleeTrees {
    pub result: Tree,
    pub backs: Vec<Tree>,
}

/// What a body reads of other callables, for a caller that has no models: the trees of its callees, by their positions, and
/// trees that are put into cells, each by a callable of its own.
#[derive(Debug, Drop)]
pub struct Told {
    pub alloc: Global,
    pub callees: Vec<CalleeTrees>,
    pub puts: Vec<PutTree>,
}

// The tree of a place of a callee.
fn at_place<'a>(trees: &'a CalleeTrees, place: &Place) -> Option<&'a Tree>
    ensures { MatchOption result (callee_family trees.now place.now ≡ empty) (λ t. t.now ≡ callee_family trees.now place.now) }
{
    match place {
        Place::Node(_) => None,
        Place::Result => Some(&trees.result),
        Place::Back(parameter) => match trees.backs.get(*parameter as usize) {
            Some(tree) => Some(tree),
            None => None,
        },
        Place::Put(_) => None,
    }
}

// Whether what is read by a step may be what was put into a cell.
fn may_read(step: &Step, cell: &Step) -> bool
    ensures { result ≡ meets cell.now step.now }
{
    cell.meets(step)
}

impl Inputs for Told {
    ghost use Rattle.rows.specs.Told.{told_trees};

    ghost trees = { told_trees };

    fn tree(&self, callee: u32, place: &Place) -> Option<&Tree> {
        match self.callees.get(callee as usize) {
            None => None,
            Some(trees) => at_place(trees, place),
        }
    }

    fn cells(&self, step: &Step) -> Result<Tree, Memory> {
        let mut all = Tree::empty(self.alloc);
        for put in &self.puts {
            if !may_read(step, &put.cell) {
                continue;
            }
            let farther = bump(&put.tree)?;
            all.join_in(&farther)?;
        }
        Ok(all)
    }
}
