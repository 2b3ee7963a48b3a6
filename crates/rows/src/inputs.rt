//! What a body reads of other callables.

ghost use Rattle.std.specs.Prelude.{◌≡◌, IfOk};
ghost use Rattle.std.specs.Option.{MatchOption};
ghost use Rattle.std.specs.FinMap.{empty};
ghost use Rattle.rows.specs.Families.{InputTrees, IsJoinOfCells};

use crate::Place;
use path_trees::{Step, Tree};
use rv_names::Memory;

/// The models of other callables, as a body reads them. They do not change while its rows are solved.
pub trait Inputs {
    /// The trees of the callees, by their positions in the body's list of callees, and what each callable puts into cells.
    ghost trees: { Self → InputTrees };

    /// The tree of a callee's place; none where it is empty.
    fn tree(&self, callee: u32, place: &Place) -> Option<&Tree>
        ensures { MatchOption result ((trees self.now).of callee place.now ≡ empty) (λ t. t.now ≡ (trees self.now).of callee place.now) };

    /// The join of what all callables put into the cells that meet a step, each one farther away.
    fn cells(&self, step: &Step) -> Result<Tree, Memory>
        ensures { IfOk result (λ t. IsJoinOfCells (trees self.now).puts step.now t) };
}
