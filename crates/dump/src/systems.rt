//! Systems of rows to measure with.

ghost use Rattle.std.specs.Prelude.{◌<◌, ◌^◌};

use path_trees::{Entry, Mark, Path, Spot, Tree};
use rows::{Moves, Place, Right, Row, Told, least};
use rv_names::Memory;
use std::alloc::Global;

/// How the nodes of a system stand to one another. The first one is given a source, from which each takes what it has.
#[derive(Clone, Copy, Debug, PartialEq, Eq)]
pub enum Shape {
    /// Each takes from the one before it; the rows stand from the last to the first.
    Chain,
    /// All but the last take from the first, and the last from all of them.
    Diamond,
    /// A chain whose first takes from its last.
    Loop,
}

/// A tree with one source, at its root.
fn source(alloc: Global) -> Result<Tree, Memory> {
    let spot = Spot {
        path: Path::empty(alloc),
        mark: Mark::Source { kind: 0, leaf: 0 },
    };
    Tree::of(alloc, Entry { spot, distance: 0 })
}

/// The tree of the node `to` is above that of the node `from`.
fn push_copy(alloc: Global, rows: &mut Vec<Row>, from: u32, to: u32) -> Result<(), Memory> {
    let right = Right::Local(Moves::none(alloc), from);
    rows.push(Row::Into {
        left: Place::Node(to),
        right,
    })?;
    Ok(())
}

fn push_chain(alloc: Global, rows: &mut Vec<Row>, size: u32) -> Result<(), Memory> {
    for node in (0..size).rev() {
        push_copy(alloc, rows, node, node + 1)?;
    }
    Ok(())
}

fn push_diamond(alloc: Global, rows: &mut Vec<Row>, size: u32) -> Result<(), Memory>
    requires { size < 2 ^ 31 }
{
    for node in 1..size {
        push_copy(alloc, rows, node, size)?;
        push_copy(alloc, rows, 0, node)?;
    }
    Ok(())
}

/// The rows of a system of this shape, with about so many of them.
fn system(alloc: Global, shape: Shape, size: u32) -> Result<Vec<Row>, Memory>
    requires { size < 2 ^ 31 }
{
    let mut rows = Vec::new(alloc);
    rows.push(Row::Into {
        left: Place::Node(0),
        right: Right::Known(source(alloc)?),
    })?;
    match shape {
        Shape::Chain => push_chain(alloc, &mut rows, size)?,
        Shape::Diamond => push_diamond(alloc, &mut rows, size)?,
        Shape::Loop => {
            push_copy(alloc, &mut rows, size, 0)?;
            push_chain(alloc, &mut rows, size)?;
        }
    }
    Ok(rows)
}

/// How many nodes of the least solution of such a system have a source.
pub fn count_reached(alloc: Global, shape: Shape, size: u32) -> Result<usize, Memory>
    requires { size < 2 ^ 31 }
{
    let rows = system(alloc, shape, size)?;
    let others = Told {
        alloc,
        callees: Vec::new(alloc),
        puts: Vec::new(alloc),
    };
    let solution = least(alloc, &others, &rows)?;
    Ok(
        solution
            .nodes
            .iter()
            .filter(|tree| !tree.is_empty())
            .count(),
    )
}
