//! What is done with trees.

ghost use Rattle.std.specs.Prelude.{◌≡◌, ◌↔◌, IfOk, IsTrue};
ghost use Rattle.path_trees.specs.declared.moves.Move.TheVariants.{Bump, Part, Under, Without, Collapse};
ghost use Rattle.path_trees.specs.Trees.{Below};
ghost use Rattle.path_trees.specs.Operations.{IsOut, applied, grafted, joined, moved, sub, taken};

use crate::{Mark, Move, Path, Step, Tree};
use rv_names::Memory;

/// Whether each entry of the first stands in the second with a distance not greater. Linear in both.
pub fn le(t: &Tree, u: &Tree) -> bool
    ensures { IsTrue result ↔ Below t.now u.now }
{
    t.le(u)
}

/// The entries of both, with the least distance at each spot. Linear in both.
pub fn join(t: &Tree, u: &Tree) -> Result<Tree, Memory>
    ensures { IfOk result (λ r. r ≡ joined t.now u.now) }
{
    t.join(u)
}

/// The part of a tree at a step: what stands at a path whose first step meets this one goes to the rest of that path. What
/// stands at the root stays, and an exact out there is read on by the step.
pub fn part(t: &Tree, s: &Step) -> Result<Tree, Memory>
    ensures { IfOk result (λ r. r ≡ moved (Part s.now) t.now) }
{
    let step = s.copy()?;
    t.moved(&Move::Part(step))
}

/// The tree of a value that has the given one at a step: each path gets the step in front, cut to four steps.
pub fn under(s: &Step, t: &Tree) -> Result<Tree, Memory>
    ensures { IfOk result (λ r. r ≡ moved (Under s.now) t.now) }
{
    let step = s.copy()?;
    t.moved(&Move::Under(step))
}

/// The entries whose path does not begin with the step itself.
pub fn without(t: &Tree, s: &Step) -> Result<Tree, Memory>
    ensures { IfOk result (λ r. r ≡ moved (Without s.now) t.now) }
{
    let step = s.copy()?;
    t.moved(&Move::Without(step))
}

/// All entries at the root, each out flat.
pub fn collapse(t: &Tree) -> Result<Tree, Memory>
    ensures { IfOk result (λ r. r ≡ moved Collapse t.now) }
{
    t.moved(&Move::Collapse)
}

/// Each distance one more, and at most 63.
pub fn bump(t: &Tree) -> Result<Tree, Memory>
    ensures { IfOk result (λ r. r ≡ moved Bump t.now) }
{
    t.moved(&Move::Bump)
}

/// The tree under a path: `under` for its steps, the last one first.
pub fn graft(p: &Path, t: &Tree) -> Result<Tree, Memory>
    ensures { IfOk result (λ r. r ≡ grafted p.now t.now) }
{
    graft_steps(p.steps(), t)
}

/// The part of a tree along a path: `part` for its steps, the first one first.
pub fn sub(t: &Tree, p: &Path) -> Result<Tree, Memory>
    ensures { IfOk result (λ r. r ≡ sub t.now p.now) }
{
    sub_steps(t, p.steps())
}

/// What an out at a path of a value gives, where the tree is that of the value: the part along that path, under the path
/// of the out. A flat out takes the part collapsed.
pub fn apply(t: &Tree, p: &Path, out: &Mark) -> Result<Tree, Memory>
    requires { IsOut out.now }
    ensures { IfOk result (λ r. r ≡ applied t.now p.now out.now) }
{
    match out {
        Mark::Source { .. } => unreachable!(),
        Mark::Sink { .. } => unreachable!(),
        Mark::Out { path, flat, .. } => {
            let part = sub(t, p)?;
            let part = taken(part, *flat)?;
            graft(path, &part)
        }
    }
}

fn taken(t: Tree, flat: bool) -> Result<Tree, Memory>
    ensures { IfOk result (λ r. r ≡ taken flat t) }
{
    if flat {
        return collapse(&t);
    }
    Ok(t)
}

fn graft_steps(steps: &[Step], t: &Tree) -> Result<Tree, Memory>
    ensures { IfOk result (λ r. r ≡ grafted steps.now t.now) }
{
    match steps {
        [] => t.copy(),
        [s, rest @ ..] => {
            let below = graft_steps(rest, t)?;
            under(s, &below)
        }
    }
}

fn sub_steps(t: &Tree, steps: &[Step]) -> Result<Tree, Memory>
    ensures { IfOk result (λ r. r ≡ sub t.now steps.now) }
{
    match steps {
        [] => t.copy(),
        [s, rest @ ..] => {
            let part = part(t, s)?;
            sub_steps(&part, rest)
        }
    }
}
