//! Paths of at most four steps.

ghost use Rattle.std.specs.Prelude.{◌≡◌, ◌++◌, ◌∷◌, [], ◌<◌, ◌≤◌, IfOk, OnOk, length, take, drop};
ghost use Rattle.path_trees.specs.Steps.{IsHeldPath, AreHeldSteps, path_order, paths_meet};

use crate::Step;
use rv_names::Memory;
use std::alloc::Global;
use std::cmp::Ordering;
use std::marker::Model;

/// A path from a value to a part of it, of at most four steps, the outermost first.
#[derive(Debug, Drop)]
pub struct Path {
    steps: Vec<Step>,
}

impl Model for Path {
    ghost use Rattle.std.specs.Prelude.{List, ◌≤◌, length};
    ghost use Rattle.path_trees.specs.declared.steps.Step.{Step};

    ghost Value = { List Step };

    ghost view = { λ p. p.steps.items };

    ghost invariant = { λ p. length p.steps.items ≤ 4 };
}

impl Path {
    /// The path of no steps, which is the value itself. It takes no memory.
    pub fn empty(alloc: Global) -> Path
        ensures { result ≡ [] }
    {
        Path {
            steps: Vec::new(alloc),
        }
    }

    /// The path of the first four of some steps.
    pub fn of(alloc: Global, steps: &[Step]) -> Result<Path, Memory>
        ensures { IfOk result (λ p. p ≡ take 4 steps.now) }
    {
        let mut copies = Vec::new(alloc);
        push_copies(&mut copies, front(steps, 4))?;
        Ok(Path { steps: copies })
    }

    /// Its steps.
    pub fn steps(&self) -> &[Step]
        ensures all { result.now ≡ self.now }
        ensures short { length self.now ≤ 4 }
    {
        &self.steps
    }

    /// The same path.
    pub fn copy(&self) -> Result<Path, Memory>
        ensures { IfOk result (λ p. p ≡ self.now) }
    {
        let mut steps = Vec::new(*self.steps.allocator());
        push_copies(&mut steps, &self.steps)?;
        Ok(Path { steps })
    }

    /// The path of no steps, by the allocator of this one. It takes no memory.
    pub fn root(&self) -> Path
        ensures { result ≡ [] }
    {
        Path::empty(*self.steps.allocator())
    }

    /// The path without its first step.
    pub fn rest(&self) -> Result<Path, Memory>
        ensures { IfOk result (λ p. p ≡ drop 1 self.now) }
    {
        let mut steps = Vec::new(*self.steps.allocator());
        push_copies(&mut steps, rest(&self.steps))?;
        Ok(Path { steps })
    }

    /// The path under a step, cut to four steps.
    pub fn under(&self, step: &Step) -> Result<Path, Memory>
        ensures { IfOk result (λ p. p ≡ take 4 (step.now ∷ self.now)) }
    {
        let mut steps = Vec::new(*self.steps.allocator());
        let first = step.copy()?;
        steps.push(first)?;
        push_copies(&mut steps, front(&self.steps, 3))?;
        Ok(Path { steps })
    }

    /// The path and one step more.
    pub fn and_then(&self, step: &Step) -> Result<Path, Memory>
        requires { length self.now < 4 }
        ensures { IfOk result (λ p. p ≡ self.now ++ step.now ∷ []) }
    {
        let mut steps = Vec::new(*self.steps.allocator());
        push_copies(&mut steps, &self.steps)?;
        let last = step.copy()?;
        steps.push(last)?;
        Ok(Path { steps })
    }

    /// How the two are ordered: by the first step that differs.
    pub fn order(&self, other: &Path) -> Ordering
        ensures { result ≡ path_order self.now other.now }
    {
        order(&self.steps, &other.steps)
    }

    /// Whether the steps of both meet, one by one, over the shorter length.
    pub fn meets(&self, other: &Path) -> bool
        ensures { result ≡ paths_meet self.now other.now }
    {
        meet(&self.steps, &other.steps)
    }

    /// The path is one of finitely many, which a proof that counts them may use.
    pub fn know(&self)
        ensures { IsHeldPath self.now }
    {
        know(&self.steps);
    }
}

// The first n of some steps.
fn front(steps: &[Step], n: usize) -> &[Step]
    ensures { result.now ≡ take n steps.now }
{
    if steps.len() > n { &steps[..n] } else { steps }
}

// All but the first of some steps.
fn rest(steps: &[Step]) -> &[Step]
    ensures { result.now ≡ drop 1 steps.now }
{
    match steps {
        [] => steps,
        [_, rest @ ..] => rest,
    }
}

fn push_copies(to: &mut Vec<Step>, steps: &[Step]) -> Result<(), Memory>
    ensures { OnOk result (to.new.items ≡ to.old.items ++ steps.now) }
{
    for step in steps {
        let copy = step.copy()?;
        to.push(copy)?;
    }
    Ok(())
}

fn order(a: &[Step], b: &[Step]) -> Ordering
    ensures { result ≡ path_order a.now b.now }
{
    match a {
        [] => match b {
            [] => Ordering::Equal,
            [_, ..] => Ordering::Less,
        },
        [s, p @ ..] => match b {
            [] => Ordering::Greater,
            [r, q @ ..] => s.order(r).then(order(p, q)),
        },
    }
}

fn meet(a: &[Step], b: &[Step]) -> bool
    ensures { result ≡ paths_meet a.now b.now }
{
    match a {
        [] => true,
        [s, p @ ..] => match b {
            [] => true,
            [r, q @ ..] => s.meets(r) && meet(p, q),
        },
    }
}

fn know(steps: &[Step])
    ensures { AreHeldSteps steps.now }
{
    match steps {
        [] => {}
        [s, p @ ..] => {
            s.know();
            know(p);
        }
    }
}
