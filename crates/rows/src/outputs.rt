//! The trees of the places that no row reads: the result, what is wanted of the parameters, and what is put into cells.

ghost use Rattle.std.specs.Prelude.{◌≡◌, ◌<◌, ◌≤◌, ℕ, [], length, vec_len, IfOk, OnOk};
ghost use Rattle.std.specs.FinMap.{empty};
ghost use Rattle.path_trees.specs.Operations.{joined};
ghost use Rattle.path_trees.specs.declared.steps.Step.{Step};
ghost use Rattle.rows.specs.declared.places.Place.TheVariants.{Back, Put, Result};
ghost use Rattle.rows.specs.declared.inequalities.Row.TheVariants.{Into, Puts};
ghost use Rattle.rows.specs.Families.{InputTrees, tree_at};
ghost use Rattle.rows.specs.Rules.{put_entry, put_through};
ghost use Rattle.rows.specs.Inequalities.{IsLeast};
ghost use Rattle.rows.specs.Working.{Working};
ghost use Rattle.rows.specs.Solutions.{Given, family, put_at};

use crate::values::{node, of_callee, value};
use crate::{Inputs, Place, PutTree, Right, Row, Solution};
use path_trees::{Mark, Port, Spot, Step, Tree, apply};
use rv_names::Memory;
use std::alloc::Global;

// Puts trees behind the others until there are as many as are asked for.
pub(crate) fn grow(alloc: Global, trees: &mut Vec<Tree>, count: usize) -> Result<(), Memory>
    ensures enough { OnOk result (count ≤ vec_len trees.new) }
    ensures more { OnOk result (vec_len trees.old ≤ vec_len trees.new) }
    ensures same { OnOk result ((k : ℕ) → tree_at trees.new.items k ≡ tree_at trees.old.items k) }
{
    while trees.len() < count {
        trees.push(Tree::empty(alloc))?;
    }
    Ok(())
}

fn give_result<I: Inputs>(
    alloc: Global,
    inputs: &I,
    right: &Right,
    solution: &mut Solution,
) -> Result<(), Memory>
    ensures { OnOk result (Given (I.trees inputs.now) (Into Result right.now) (family solution.old) (family solution.new)) }
{
    let right = value(alloc, inputs, &solution.nodes, right)?;
    solution.result.join_in(&right)?;
    Ok(())
}

fn give_back<I: Inputs>(
    alloc: Global,
    inputs: &I,
    parameter: u32,
    right: &Right,
    solution: &mut Solution,
) -> Result<(), Memory>
    ensures { OnOk result (Given (I.trees inputs.now) (Into (Back parameter) right.now) (family solution.old) (family solution.new)) }
{
    let right = value(alloc, inputs, &solution.nodes, right)?;
    let backs = &mut solution.backs;
    grow(alloc, backs, parameter as usize + 1)?;
    let back = &mut backs[parameter as usize];
    back.join_in(&right)?;
    Ok(())
}

fn give_put<I: Inputs>(
    alloc: Global,
    inputs: &I,
    cell: &Step,
    right: &Right,
    solution: &mut Solution,
) -> Result<(), Memory>
    ensures { OnOk result (Given (I.trees inputs.now) (Into (Put cell.now) right.now) (family solution.old) (family solution.new)) }
{
    let tree = value(alloc, inputs, &solution.nodes, right)?;
    let cell = cell.copy()?;
    solution.puts.push(PutTree { cell, tree })?;
    Ok(())
}

// Puts what an out to a cell makes of the tree of an argument.
fn put_out(argument: &Tree, spot: &Spot, puts: &mut Vec<PutTree>) -> Result<(), Memory>
    ensures { OnOk result ((c : Step) → put_at puts.new.items c ≡ joined (put_at puts.old.items c) (put_entry c argument.now spot.now 0)) }
{
    match &spot.mark {
        Mark::Source { .. } => Ok(()),
        Mark::Sink { .. } => Ok(()),
        Mark::Out { port, .. } => match port {
            Port::Result => Ok(()),
            Port::Cell(cell) => {
                let tree = apply(argument, &spot.path, &spot.mark)?;
                let cell = cell.copy()?;
                puts.push(PutTree { cell, tree })?;
                Ok(())
            }
        },
    }
}

// Puts what the outs to cells make of the tree of an argument.
fn put_outs(argument: &Tree, back: &Tree, puts: &mut Vec<PutTree>) -> Result<(), Memory>
    ensures { OnOk result ((c : Step) → put_at puts.new.items c ≡ joined (put_at puts.old.items c) (put_through c argument.now back.now)) }
{
    let entries = back.entries();
    for entry in entries {
        put_out(argument, &entry.spot, puts)?;
    }
    Ok(())
}

fn give_outs<I: Inputs>(
    alloc: Global,
    inputs: &I,
    callee: u32,
    parameter: u32,
    at: u32,
    solution: &mut Solution,
) -> Result<(), Memory>
    ensures { OnOk result (Given (I.trees inputs.now) (Puts callee parameter at) (family solution.old) (family solution.new)) }
{
    let none = Tree::empty(alloc);
    let place = Place::Back(parameter);
    let back = of_callee(inputs, callee, &place, &none);
    let argument = node(&solution.nodes, at, &none);
    put_outs(argument, back, &mut solution.puts)?;
    Ok(())
}

// What a row asks of a place that is no node is given.
fn give<I: Inputs>(
    alloc: Global,
    inputs: &I,
    row: &Row,
    solution: &mut Solution,
) -> Result<(), Memory>
    ensures { OnOk result (Given (I.trees inputs.now) row.now (family solution.old) (family solution.new)) }
{
    match row {
        Row::Into { left, right } => match left {
            Place::Node(_) => Ok(()),
            Place::Result => give_result(alloc, inputs, right, solution),
            Place::Back(parameter) => give_back(alloc, inputs, *parameter, right, solution),
            Place::Put(cell) => give_put(alloc, inputs, cell, right, solution),
        },
        Row::Puts {
            callee,
            parameter,
            node,
        } => give_outs(alloc, inputs, *callee, *parameter, *node, solution),
    }
}

/// The solution of which the trees of the nodes are known.
pub(crate) fn outputs<I: Inputs>(
    alloc: Global,
    inputs: &I,
    rows: &[Row],
    nodes: Vec<Tree>,
) -> Result<Solution, Memory>
    requires { Working (I.trees inputs.now) rows.now nodes.items [] }
    ensures { IfOk result (λ s. IsLeast (I.trees inputs.now) rows.now (family s)) }
{
    let mut solution = Solution {
        nodes,
        result: Tree::empty(alloc),
        backs: Vec::new(alloc),
        puts: Vec::new(alloc),
    };
    for row in rows {
        give(alloc, inputs, row, &mut solution)?;
    }
    Ok(solution)
}
