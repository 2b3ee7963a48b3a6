//! The places of a callable that have a tree.

use path_trees::Step;

/// A place of one callable.
#[derive(Debug, Drop)]
pub enum Place {
    /// A tree of the body alone, by a number of its own: of a local at a point, of an expression's value, of what is wanted
    /// of it. The numbers are dense: the nodes of a body are kept in one list.
    Node(u32),
    /// What the callable returns.
    Result,
    /// What is wanted of a parameter, by its number from 0.
    Back(u32),
    /// What the callable puts into the cell of a step.
    Put(Step),
}
