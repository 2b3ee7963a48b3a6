//! The least trees of the nodes: rows are taken from a list until none is left, and where a tree grew, the rows that read it
//! are put into the list.

ghost use Rattle.std.specs.Prelude.{◌≡◌, ◌<◌, ◌≤◌, ◌^◌, ℕ, [], length, vec_len, Contains, IfOk, OnOk};
ghost use Rattle.std.specs.FinMap.{empty};
ghost use Rattle.ready_list.specs.Listed.{IsWellFormed};
ghost use Rattle.rows.specs.Families.{tree_at};
ghost use Rattle.rows.specs.Reading.{IsIndex};
ghost use Rattle.rows.specs.Working.{AreRowsBelow, Raised, Turned, Working};

use crate::readers::{Readers, push_readers};
use crate::values::value;
use crate::{Inputs, Place, Right, Row};
use path_trees::Tree;
use ready_list::Links;
use rv_names::Memory;
use std::alloc::Global;

// Raises the tree of a node to a right side. Where it grew, the rows that read it are put into the list.
fn raise<I: Inputs>(
    alloc: Global,
    inputs: &I,
    readers: &Readers,
    node: u32,
    right: &Right,
    nodes: &mut Vec<Tree>,
    list: &mut Links,
) -> Result<(), Memory>
    requires index { let r = readers.now in IsIndex r.rows.now (length r.rows.now) r.last.items r.before.items }
    requires node { node < vec_len nodes.old }
    requires nodes { vec_len nodes.old ≡ vec_len readers.now.last }
    requires room { list.old.room ≡ length readers.now.rows.now }
    requires well_formed { IsWellFormed list.old }
    ensures raised { OnOk result (Raised (I.trees inputs.now) readers.now.rows.now node right.now nodes.old.items nodes.new.items list.old.ids list.new.ids) }
    ensures room { list.new.room ≡ list.old.room }
    ensures well_formed { IsWellFormed list.new }
{
    let right = value(alloc, inputs, nodes, right)?;
    let tree = &mut nodes[node as usize];
    let grew = tree.join_in(&right)?;
    if !grew {
        return Ok(());
    }
    push_readers(readers, node, list);
    Ok(())
}

// What a row that was taken from the list asks of a node is done.
fn turn<I: Inputs>(
    alloc: Global,
    inputs: &I,
    readers: &Readers,
    row: u32,
    nodes: &mut Vec<Tree>,
    list: &mut Links,
) -> Result<(), Memory>
    requires index { let r = readers.now in IsIndex r.rows.now (length r.rows.now) r.last.items r.before.items }
    requires row { row < length readers.now.rows.now }
    requires lefts { AreRowsBelow (vec_len readers.now.last) readers.now.rows.now }
    requires nodes { vec_len nodes.old ≡ vec_len readers.now.last }
    requires room { list.old.room ≡ length readers.now.rows.now }
    requires well_formed { IsWellFormed list.old }
    ensures turned { OnOk result (Turned (I.trees inputs.now) readers.now.rows.now row nodes.old.items nodes.new.items list.old.ids list.new.ids) }
    ensures room { list.new.room ≡ list.old.room }
    ensures well_formed { IsWellFormed list.new }
{
    match &readers.rows[row as usize] {
        Row::Puts { .. } => Ok(()),
        Row::Into { left, right } => match left {
            Place::Node(node) => raise(alloc, inputs, readers, *node, right, nodes, list),
            Place::Result => Ok(()),
            Place::Back(_) => Ok(()),
            Place::Put(_) => Ok(()),
        },
    }
}

// The list of all rows.
fn all_rows(alloc: Global, count: u32) -> Result<Links, Memory>
    ensures all { IfOk result (λ list. (i : ℕ) → i < count → Contains list.ids i) }
    ensures room { IfOk result (λ list. list.room ≡ count) }
    ensures well_formed { IfOk result (λ list. IsWellFormed list) }
{
    let Ok(mut list) = Links::with_room(alloc, count) else {
        return Err(Memory);
    };
    for row in 0..count {
        list.push_back(row);
    }
    Ok(list)
}

/// Raises the trees of the nodes, which are empty, until each row that asks something of a node holds. They stay below each
/// solution of the rows.
pub(crate) fn settle<I: Inputs>(
    alloc: Global,
    inputs: &I,
    readers: &Readers,
    nodes: &mut Vec<Tree>,
) -> Result<(), Memory>
    requires index { let r = readers.now in IsIndex r.rows.now (length r.rows.now) r.last.items r.before.items }
    requires few { length readers.now.rows.now < 2 ^ 32 }
    requires lefts { AreRowsBelow (vec_len readers.now.last) readers.now.rows.now }
    requires nodes { vec_len nodes.old ≡ vec_len readers.now.last }
    requires empty { (n : ℕ) → tree_at nodes.old.items n ≡ empty }
    ensures { OnOk result (Working (I.trees inputs.now) readers.now.rows.now nodes.new.items []) }
{
    let mut list = all_rows(alloc, readers.rows.len() as u32)?;
    while let Some(row) = list.pop_front() {
        turn(alloc, inputs, readers, row, nodes, &mut list)?;
    }
    Ok(())
}
