//! The solution of the rows of a body.

use path_trees::{Step, Tree};

/// What is put into a cell.
#[derive(Debug, Drop)]
pub struct PutTree {
    pub cell: Step,
    pub tree: Tree,
}

/// The trees of the places of a body. A place that is not told of has the empty tree.
#[derive(Debug, Drop)]
pub struct Solution {
    /// The trees of the nodes, by their numbers.
    pub nodes: Vec<Tree>,
    pub result: Tree,
    /// What is wanted of the parameters, by their numbers.
    pub backs: Vec<Tree>,
    /// What is put into cells. A cell may stand more than once: its tree is the join of what is put into it.
    pub puts: Vec<PutTree>,
}
