//! What a call makes of the entries of a callee's backward tree.

ghost use Rattle.std.specs.Prelude.{◌≡◌, ◌≤◌, IfOk, IsTrue};
ghost use Rattle.std.specs.FinMap.{entries};
ghost use Rattle.path_trees.specs.Trees.{AreNear, pairs_of};
ghost use Rattle.path_trees.specs.Operations.{IsOut, taken};
ghost use Rattle.rows.specs.Rules.{carried, carried_entry, goes_on, join_of, leads_to_result, through, through_entry, wanted, wanted_entry, wanted_mark};
ghost use Rattle.rows.specs.Making.{entry_made};

use path_trees::{Entry, Mark, Move, Path, Port, Spot, Tree, apply, collapse, graft, sub};
use rv_names::Memory;
use std::alloc::Global;

/// What is made of each entry.
#[derive(Drop)]
pub(crate) enum Rule<'a> {
    /// It goes on to the caller, if it does.
    Carried,
    /// An out to the result is applied to the tree of the argument.
    Through(&'a Tree),
    /// What is wanted of the result is wanted of the argument.
    Wanted(&'a Tree),
}

/// The sinks of a callee's backward tree, and its outs to cells, each one farther away. n log n for n entries.
pub fn carried(alloc: Global, back: &Tree) -> Result<Tree, Memory>
    ensures { IfOk result (λ t. t ≡ carried back.now) }
{
    gathered(alloc, back.entries(), &Rule::Carried)
}

/// What comes to the result of a call out of an argument: each out to the result applied to the argument's tree.
pub fn through(alloc: Global, argument: &Tree, back: &Tree) -> Result<Tree, Memory>
    ensures { IfOk result (λ t. t ≡ through argument.now back.now) }
{
    gathered(alloc, back.entries(), &Rule::Through(argument))
}

/// What is wanted of an argument since a tree is wanted of the result: for each out to the result at a path, the part of
/// that tree along the out's path, collapsed where the out is flat, under the path.
pub fn wanted(alloc: Global, result_wanted: &Tree, back: &Tree) -> Result<Tree, Memory>
    ensures { IfOk result (λ t. t ≡ wanted result_wanted.now back.now) }
{
    gathered(alloc, back.entries(), &Rule::Wanted(result_wanted))
}

// What is made of some entries, joined by halves.
fn gathered(alloc: Global, entries: &[Entry], rule: &Rule) -> Result<Tree, Memory>
    requires { AreNear entries.now }
    ensures { IfOk result (λ t. t ≡ join_of (entry_made rule.now) (pairs_of entries.now)) }
{
    match entries {
        [] => Ok(Tree::empty(alloc)),
        [entry] => made(alloc, entry, rule),
        _ => {
            let (front, back) = entries.split_at(entries.len() / 2);
            let front = gathered(alloc, front, rule)?;
            let back = gathered(alloc, back, rule)?;
            front.join(&back)
        }
    }
}

fn made(alloc: Global, entry: &Entry, rule: &Rule) -> Result<Tree, Memory>
    requires { entry.now.distance ≤ 63 }
    ensures { IfOk result (λ t. t ≡ entry_made rule.now entry.now.spot entry.now.distance) }
{
    match rule {
        Rule::Carried => carried_entry(alloc, entry),
        Rule::Through(argument) => through_entry(alloc, argument, &entry.spot),
        Rule::Wanted(tree) => wanted_mark(alloc, tree, &entry.spot.path, &entry.spot.mark),
    }
}

fn carried_entry(alloc: Global, entry: &Entry) -> Result<Tree, Memory>
    requires { entry.now.distance ≤ 63 }
    ensures { IfOk result (λ t. t ≡ carried_entry entry.now.spot entry.now.distance) }
{
    if !goes_on(&entry.spot.mark) {
        return Ok(Tree::empty(alloc));
    }
    let spot = entry.spot.copy()?;
    let distance = Move::Bump.shift(entry.distance);
    Tree::of(alloc, Entry { spot, distance })
}

fn through_entry(alloc: Global, argument: &Tree, spot: &Spot) -> Result<Tree, Memory>
    ensures { IfOk result (λ t. t ≡ through_entry argument.now spot.now 0) }
{
    if !leads_to_result(&spot.mark) {
        return Ok(Tree::empty(alloc));
    }
    apply(argument, &spot.path, &spot.mark)
}

fn wanted_mark(alloc: Global, tree: &Tree, at: &Path, mark: &Mark) -> Result<Tree, Memory>
    ensures { IfOk result (λ t. t ≡ wanted_mark tree.now at.now mark.now) }
{
    match mark {
        Mark::Source { .. } => Ok(Tree::empty(alloc)),
        Mark::Sink { .. } => Ok(Tree::empty(alloc)),
        Mark::Out { port, path, flat } => match port {
            Port::Result => {
                let part = sub(tree, path)?;
                let part = taken(part, *flat)?;
                graft(at, &part)
            }
            Port::Cell(_) => Ok(Tree::empty(alloc)),
        },
    }
}

fn taken(t: Tree, flat: bool) -> Result<Tree, Memory>
    ensures { IfOk result (λ r. r ≡ taken flat t) }
{
    if flat {
        return collapse(&t);
    }
    Ok(t)
}

fn goes_on(mark: &Mark) -> bool
    ensures { result ≡ goes_on mark.now }
{
    match mark {
        Mark::Source { .. } => false,
        Mark::Sink { .. } => true,
        Mark::Out { port, .. } => match port {
            Port::Result => false,
            Port::Cell(_) => true,
        },
    }
}

fn leads_to_result(mark: &Mark) -> bool
    ensures test { result ≡ leads_to_result mark.now }
    ensures out { IsTrue result → IsOut mark.now }
{
    match mark {
        Mark::Source { .. } => false,
        Mark::Sink { .. } => false,
        Mark::Out { port, .. } => match port {
            Port::Result => true,
            Port::Cell(_) => false,
        },
    }
}
