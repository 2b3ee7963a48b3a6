//! Models in nearly the order of their names, so that a sort of the names finds long runs and compares few of them.
//!
//! Each model gets a number for the front of its name, behind the names that all share, and the models are sorted by these
//! numbers. Where two numbers differ they tell the order of the names, but for names whose fronts are long: no clause rests on
//! that, since the names are sorted after it.

ghost use Rattle.std.specs.Prelude.{◌≤◌, IfOk};
ghost use Rattle.std.specs.List.Sorted.{IsPermutation};

use crate::models::Placed;
use rv_names::{Memory, Name};
use std::alloc::Global;

/// How many bytes of a name's front its number has.
const FRONT: usize = 16;

/// How many names stand at the front of both.
fn shared_names(one: &[Name], other: &[Name]) -> usize {
    for (place, name) in one.iter().enumerate() {
        match other.get(place) {
            Some(same) if same == name => {}
            _ => return place,
        }
    }
    one.len()
}

/// How many names stand at the front of each model's name.
fn names_in_common(models: &[Placed<'_>]) -> usize {
    let Some(first) = models.first() else {
        return 0;
    };
    let first = first.decl.name.parts();
    let mut common = first.len();
    for model in models {
        common = common.min(shared_names(first, model.decl.name.parts()));
    }
    common
}

/// Writes a name and a dot behind what is filled, as far as there is room, and gives what is filled then.
fn fill(front: &mut [u8; FRONT], filled: usize, name: &Name) -> usize {
    let mut filled = filled;
    for byte in name.as_str().as_bytes() {
        if filled < FRONT {
            front[filled] = *byte;
            filled += 1;
        }
    }
    if filled < FRONT {
        front[filled] = b'.';
        filled += 1;
    }
    filled
}

/// The number of a name's front: its first bytes, of which the first counts most.
fn front_number(names: &[Name]) -> u128 {
    let mut front = [0; FRONT];
    let mut filled = 0;
    for name in names {
        filled = fill(&mut front, filled, name);
    }
    u128::from_be_bytes(front)
}

/// The names behind the first ones.
fn behind(names: &[Name], first: usize) -> &[Name] {
    match names.get(first..) {
        Some(rest) => rest,
        None => &[],
    }
}

/// The models in nearly the order of their names. It costs a sort of numbers.
pub fn arranged<'a>(alloc: Global, models: &[Placed<'a>]) -> Result<Vec<Placed<'a>>, Memory>
    ensures { IfOk result (λ v. IsPermutation models.now v.items) }
{
    let common = names_in_common(models);
    let mut arranged = Vec::from_slice(alloc, models)?;
    arranged.sort_by_cached_key(|model: &Placed<'_>| -> u128 {
        front_number(behind(model.decl.name.parts(), common))
    })?;
    Ok(arranged)
}
