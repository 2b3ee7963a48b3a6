//! Lists with commas, as they are read: an item may stand behind each comma.

ghost use Rattle.std.specs.Prelude.{◌≡◌, ◌∷◌, [], List, reverse, IfOk};
ghost use Rattle.py_ast.specs.Trees.{given};

use py_literals::place::Pos;
use sqlite_items::Items;
use std::alloc::{AllocError, Global};

/// The items, last first.
fn reversed<A: Drop>(alloc: Global, items: Items<A>) -> Result<Items<A>, AllocError>
    ensures { IfOk result (λ all. all ≡ reverse items) }
{
    let mut rest = items;
    let mut all = Items::from_vec(Vec::with_capacity(alloc, rest.len())?);
    while let Some(item) = rest.pop() {
        all.push(item)?;
    }
    Ok(all)
}

/// One item, with room for no other, as most lists have one.
fn alone<A: Drop>(alloc: Global, item: A) -> Result<Items<A>, AllocError>
    ensures { IfOk result (λ all. all ≡ item ∷ []) }
{
    let mut all = Vec::with_capacity(alloc, 1)?;
    all.push_reserved(item);
    Ok(Items::from_vec(all))
}

/// An item, and those that stand behind commas, of which there are some.
fn all_after<A: Drop>(
    alloc: Global,
    first: A,
    others: Items<(Pos, Option<A>)>,
) -> Result<Items<A>, AllocError>
    ensures { IfOk result (λ all. all ≡ first ∷ given others) }
{
    let room = others.len().saturating_add(1);
    let mut rest = reversed(alloc, others)?;
    let mut all = Items::from_vec(Vec::with_capacity(alloc, room)?);
    all.push(first)?;
    while let Some((_, item)) = rest.pop() {
        if let Some(item) = item {
            all.push(item)?;
        }
    }
    Ok(all)
}

/// An item, and those that stand behind commas. Linear in the commas.
pub fn given_after<A: Drop>(
    alloc: Global,
    first: A,
    others: Items<(Pos, Option<A>)>,
) -> Result<Items<A>, AllocError>
    ensures { IfOk result (λ all. all ≡ first ∷ given others) }
{
    if others.is_empty() {
        return alone(alloc, first);
    }
    all_after(alloc, first, others)
}
