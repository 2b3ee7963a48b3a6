//! Spots and entries: where a mark stands in a tree, and at which distance.

ghost use Rattle.std.specs.Prelude.{◌≡◌, ◌∷◌, [], IfOk};
ghost use Rattle.path_trees.specs.Spots.{IsHeldSpot, cut, flattened, spot_order};
ghost use Rattle.path_trees.specs.Moves.{begins_with, move_spot, part_spot};
ghost use Rattle.path_trees.specs.Operations.{spots_touch};

use crate::{Mark, Move, Path, Step};
use rv_names::Memory;
use std::cmp::Ordering;

/// Where a mark stands.
#[derive(Debug, Drop)]
pub struct Spot {
    pub path: Path,
    pub mark: Mark,
}

/// A spot and its distance, which is at most 63 in a tree.
#[derive(Debug, Drop)]
pub struct Entry {
    pub spot: Spot,
    pub distance: u8,
}

impl Spot {
    /// The same spot.
    pub fn copy(&self) -> Result<Spot, Memory>
        ensures { IfOk result (λ s. s ≡ self.now) }
    {
        let path = self.path.copy()?;
        let mark = self.mark.copy()?;
        Ok(Spot { path, mark })
    }

    /// How the two are ordered: by path, and then by mark.
    pub fn order(&self, other: &Spot) -> Ordering
        ensures { result ≡ spot_order self.now other.now }
    {
        let by_path = self.path.order(&other.path);
        by_path.then(self.mark.order(&other.mark))
    }

    /// Whether this is a source, and the other a sink on a path that meets its own.
    pub fn touches(&self, other: &Spot) -> bool
        ensures { result ≡ spots_touch self.now other.now }
    {
        self.mark.touches(&other.mark) && self.path.meets(&other.path)
    }

    /// The spot is one of finitely many, which a proof that counts them may use.
    pub fn know(&self)
        ensures { IsHeldSpot self.now }
    {
        self.path.know();
        self.mark.know();
    }

    // Its place within the part at a step.
    fn part(&self, step: &Step) -> Result<Option<Spot>, Memory>
        ensures { IfOk result (λ s. s ≡ part_spot step.now self.now.path self.now.mark) }
    {
        match self.path.steps() {
            [] => {
                let mark = self.mark.read_on(step)?;
                let path = self.path.copy()?;
                Ok(Some(Spot { path, mark }))
            }
            [first, ..] => {
                if !first.meets(step) {
                    return Ok(None);
                }
                let path = self.path.rest()?;
                let mark = self.mark.copy()?;
                Ok(Some(Spot { path, mark }))
            }
        }
    }

    // Its place within a value that has this one at a step.
    fn under(&self, step: &Step) -> Result<Spot, Memory>
        ensures { IfOk result (λ s. s ≡ cut (record { path = step.now ∷ self.now.path; mark = self.now.mark })) }
    {
        let path = self.path.under(step)?;
        if self.path.steps().len() < 4 {
            let mark = self.mark.copy()?;
            return Ok(Spot { path, mark });
        }
        let mark = self.mark.flattened()?;
        Ok(Spot { path, mark })
    }

    // Whether its path begins with a step.
    fn begins_with(&self, step: &Step) -> bool
        ensures { result ≡ begins_with step.now self.now.path }
    {
        match self.path.steps() {
            [] => false,
            [first, ..] => first.same(step),
        }
    }

    // At the root, where an out becomes flat.
    fn collapsed(&self) -> Result<Spot, Memory>
        ensures { IfOk result (λ s. s ≡ record { path = []; mark = flattened self.now.mark }) }
    {
        let path = self.path.root();
        let mark = self.mark.flattened()?;
        Ok(Spot { path, mark })
    }

    /// Where a move takes it, if it stays at all.
    pub fn moved(&self, by: &Move) -> Result<Option<Spot>, Memory>
        ensures { IfOk result (λ s. s ≡ move_spot by.now self.now) }
    {
        match by {
            Move::Same => Ok(Some(self.copy()?)),
            Move::Bump => Ok(Some(self.copy()?)),
            Move::Part(step) => self.part(step),
            Move::Under(step) => Ok(Some(self.under(step)?)),
            Move::Without(step) => {
                if self.begins_with(step) {
                    return Ok(None);
                }
                Ok(Some(self.copy()?))
            }
            Move::Collapse => Ok(Some(self.collapsed()?)),
        }
    }
}

impl Entry {
    /// The same entry.
    pub fn copy(&self) -> Result<Entry, Memory>
        ensures { IfOk result (λ e. e ≡ self.now) }
    {
        let spot = self.spot.copy()?;
        Ok(Entry {
            spot,
            distance: self.distance,
        })
    }
}
