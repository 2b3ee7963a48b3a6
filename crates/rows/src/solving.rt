//! The least solution of the rows of a body.

ghost use Rattle.std.specs.Prelude.{◌≡◌, ℕ, vec_len, IfOk};
ghost use Rattle.std.specs.FinMap.{empty};
ghost use Rattle.rows.specs.Families.{InputTrees, tree_at};
ghost use Rattle.rows.specs.Inequalities.{IsLeast};
ghost use Rattle.rows.specs.Solutions.{family};
ghost use Rattle.rows.specs.Working.{AreRowsBelow, IsRowBelow};

use crate::outputs::{grow, outputs};
use crate::readers::readers_of;
use crate::settling::settle;
use crate::{Inputs, Place, Row, Solution};
use path_trees::Tree;
use rv_names::Memory;
use std::alloc::Global;

// How many nodes there have to be, since a row has a left place.
fn nodes_for(row: &Row) -> usize
    ensures { IsRowBelow result row.now }
{
    match row {
        Row::Into { left, .. } => match left {
            Place::Node(node) => *node as usize + 1,
            Place::Result => 0,
            Place::Back(_) => 0,
            Place::Put(_) => 0,
        },
        Row::Puts { .. } => 0,
    }
}

// Empty trees for all nodes that are left places.
fn empty_nodes(alloc: Global, rows: &[Row]) -> Result<Vec<Tree>, Memory>
    ensures all { IfOk result (λ nodes. AreRowsBelow (vec_len nodes) rows.now) }
    ensures empty { IfOk result (λ nodes. (n : ℕ) → tree_at nodes.items n ≡ empty) }
{
    let mut nodes = Vec::new(alloc);
    for row in rows {
        grow(alloc, &mut nodes, nodes_for(row))?;
    }
    Ok(nodes)
}

/// The least trees of the places of a body, for what other callables give: they solve the rows, and are below each solution.
///
/// Each row of a node is evaluated once, and again each time that the tree of the node that it reads grew; each other row
/// is evaluated once. So the cost is that of one row, times the number of times that a tree grew which a row reads. The trees
/// are kept by the numbers of the nodes, which have to be dense.
pub fn least<I: Inputs>(alloc: Global, inputs: &I, rows: &[Row]) -> Result<Solution, Memory>
    ensures { IfOk result (λ s. IsLeast (I.trees inputs.now) rows.now (family s)) }
{
    if rows.len() > u32::MAX as usize {
        return Err(Memory);
    }
    let mut nodes = empty_nodes(alloc, rows)?;
    let readers = readers_of(alloc, rows, nodes.len())?;
    settle(alloc, inputs, &readers, &mut nodes)?;
    outputs(alloc, inputs, rows, nodes)
}
