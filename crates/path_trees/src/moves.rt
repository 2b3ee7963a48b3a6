//! Moves: operations that take each entry of a tree by itself.

ghost use Rattle.std.specs.Prelude.{◌≡◌, ◌≤◌};
ghost use Rattle.path_trees.specs.Moves.{shift};

use crate::Step;

/// What is done with each entry of a tree.
#[derive(Debug, Drop)]
pub enum Move {
    /// It stays as it is.
    Same,
    /// Its distance is one more, and at most 63.
    Bump,
    /// Its place within the part of the value at a step: the rest of its path, where the first step meets this one. What
    /// stands at the root stays, and an exact out there is read on by the step.
    Part(Step),
    /// Its place within a value that has this one at a step, cut to four steps.
    Under(Step),
    /// It stays, unless its path begins with the step itself.
    Without(Step),
    /// It goes to the root, and an out becomes flat.
    Collapse,
}

impl Move {
    /// What it does to a distance.
    pub fn shift(&self, distance: u8) -> u8
        requires { distance ≤ 63 }
        ensures value { result ≡ shift self.now distance }
        ensures near { result ≤ 63 }
    {
        match self {
            Move::Bump => { if distance < 63 { distance + 1 } else { 63 } }
            Move::Same => distance,
            Move::Part(_) => distance,
            Move::Under(_) => distance,
            Move::Without(_) => distance,
            Move::Collapse => distance,
        }
    }
}
