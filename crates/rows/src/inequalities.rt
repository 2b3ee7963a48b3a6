//! Rows: inequalities `left >= right` over the trees of a body.

ghost use Rattle.std.specs.Prelude.{◌≡◌, ◌∷◌, [], IfOk};

use crate::Place;
use path_trees::{Move, Step, Tree};
use rv_names::Memory;
use std::alloc::Global;
use std::marker::Model;

/// Moves that are done one after the other, seen as their list, the first one first.
#[derive(Debug, Drop)]
pub struct Moves {
    moves: Vec<Move>,
}

impl Model for Moves {
    ghost use Rattle.std.specs.Prelude.{List};
    ghost use Rattle.path_trees.specs.declared.moves.Move.{Move};

    ghost Value = { List Move };

    ghost view = { λ m. m.moves.items };
}

impl Moves {
    /// No moves: a tree stays as it is. It takes no memory.
    pub fn none(alloc: Global) -> Moves
        ensures { result ≡ [] }
    {
        Moves {
            moves: Vec::new(alloc),
        }
    }

    /// One move.
    pub fn one(alloc: Global, by: Move) -> Result<Moves, Memory>
        ensures { IfOk result (λ m. m ≡ by ∷ []) }
    {
        let mut moves = Vec::new(alloc);
        moves.push(by)?;
        Ok(Moves { moves })
    }

    /// The moves of a list, the first one first. It takes no memory.
    pub fn of(moves: Vec<Move>) -> Moves
        ensures { result ≡ moves.items }
    {
        Moves { moves }
    }

    /// The moves, the first one first.
    pub fn list(&self) -> &[Move]
        ensures { result.now ≡ self.now }
    {
        &self.moves
    }
}

/// A right side. Callees are told by their positions in the body's list of callees, from 0.
#[derive(Debug, Drop)]
pub enum Right {
    /// A tree that is given, as of declared marks.
    Known(Tree),
    /// The tree of a node, moved.
    Local(Moves, u32),
    /// The tree of a callee's place, moved.
    Outer(Moves, u32, Place),
    /// The sinks of a callee's parameter, and its outs to cells, one farther away: the callee, the parameter.
    Carried(u32, u32),
    /// What comes to the result of a call out of an argument: the callee, the parameter, the node of the argument's tree.
    Through(u32, u32, u32),
    /// What is wanted of an argument since the result is wanted: the callee, the parameter, the node of what is wanted of
    /// the result.
    Wanted(u32, u32, u32),
    /// What any callable puts into the cells that meet a step, one farther away, moved.
    Cells(Moves, Step),
}

/// An inequality.
#[derive(Debug, Drop)]
pub enum Row {
    /// The tree of the place is above the right side.
    Into {
        left: Place,
        right: Right,
    },
    /// The tree of each cell is above what a call puts into it out of an argument.
    Puts {
        callee: u32,
        parameter: u32,
        node: u32,
    },
}
