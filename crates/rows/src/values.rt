//! The trees of right sides.

ghost use Rattle.std.specs.Prelude.{◌≡◌, IfOk};
ghost use Rattle.std.specs.Option.{MatchOption};
ghost use Rattle.std.specs.FinMap.{empty};
ghost use Rattle.rows.specs.declared.places.Place.TheVariants.{Back};
ghost use Rattle.rows.specs.Families.{InputTrees, tree_at};
ghost use Rattle.rows.specs.Rules.{carried, moved_all, through, wanted};
ghost use Rattle.rows.specs.Inequalities.{IsRight};

use crate::gathering::{carried, through, wanted};
use crate::{Inputs, Moves, Place, Right};
use path_trees::{Move, Step, Tree};
use rv_names::Memory;
use std::alloc::Global;

/// The tree moved by one move after the other. n log n for n entries, at each move.
pub fn moved_by(tree: &Tree, moves: &Moves) -> Result<Tree, Memory>
    ensures { IfOk result (λ t. t ≡ moved_all moves.now tree.now) }
{
    moved_by_list(tree, moves.list())
}

fn moved_by_list(tree: &Tree, moves: &[Move]) -> Result<Tree, Memory>
    ensures { IfOk result (λ t. t ≡ moved_all moves.now tree.now) }
{
    match moves {
        [] => tree.copy(),
        [by, rest @ ..] => {
            let moved = tree.moved(by)?;
            moved_by_list(&moved, rest)
        }
    }
}

// The tree of a node: `none` where there is none.
pub(crate) fn node<'a>(nodes: &'a [Tree], at: u32, none: &'a Tree) -> &'a Tree
    requires { none.now ≡ empty }
    ensures { result.now ≡ tree_at nodes.now at }
{
    match nodes.get(at as usize) {
        Some(tree) => tree,
        None => none,
    }
}

// The tree of a callee's place: `none` where there is none.
pub(crate) fn of_callee<'a, I: Inputs>(
    inputs: &'a I,
    callee: u32,
    place: &Place,
    none: &'a Tree,
) -> &'a Tree
    requires { none.now ≡ empty }
    ensures { result.now ≡ (I.trees inputs.now).of callee place.now }
{
    match inputs.tree(callee, place) {
        Some(tree) => tree,
        None => none,
    }
}

// The least tree above a right side, where the nodes have these trees.
pub(crate) fn value<I: Inputs>(
    alloc: Global,
    inputs: &I,
    nodes: &[Tree],
    right: &Right,
) -> Result<Tree, Memory>
    ensures { IfOk result (λ t. IsRight (I.trees inputs.now) (tree_at nodes.now) right.now t) }
{
    let none = Tree::empty(alloc);
    match right {
        Right::Known(tree) => tree.copy(),
        Right::Local(moves, n) => moved_by(node(nodes, *n, &none), moves),
        Right::Outer(moves, callee, place) => {
            moved_by(of_callee(inputs, *callee, place, &none), moves)
        }
        Right::Carried(callee, parameter) => {
            let place = Place::Back(*parameter);
            carried(alloc, of_callee(inputs, *callee, &place, &none))
        }
        Right::Through(callee, parameter, n) => {
            let place = Place::Back(*parameter);
            let back = of_callee(inputs, *callee, &place, &none);
            through(alloc, node(nodes, *n, &none), back)
        }
        Right::Wanted(callee, parameter, n) => {
            let place = Place::Back(*parameter);
            let back = of_callee(inputs, *callee, &place, &none);
            wanted(alloc, node(nodes, *n, &none), back)
        }
        Right::Cells(moves, step) => {
            let cells = inputs.cells(step)?;
            moved_by(&cells, moves)
        }
    }
}
