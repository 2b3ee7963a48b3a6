//! Lists that change hands, item by item.

ghost use Rattle.std.specs.Prelude.{◌≡◌, ◌++◌, ◌∷◌, IfOk, reverse};
ghost use Rattle.pysa_syntax.specs.Grammar.{joined, present};

use sqlite_items::Items;
use std::alloc::{AllocError, Global};

/// The items, the last first.
pub fn reversed<T: Drop>(alloc: Global, items: Items<T>) -> Result<Items<T>, AllocError>
    ensures { IfOk result (λ r. r ≡ reverse items) }
{
    let mut rest = items;
    let mut out = Items::new(alloc);
    'each_item: while let Some(last) = rest.pop() {
        out.push(last)?;
    }
    Ok(out)
}

/// The first items, and then all others in their order. Linear in the others.
pub fn joined<T: Drop>(
    alloc: Global,
    first: Items<T>,
    others: Items<Items<T>>,
) -> Result<Items<T>, AllocError>
    ensures { IfOk result (λ r. r ≡ first ++ joined others) }
{
    let mut out = first;
    let mut rest = reversed(alloc, others)?;
    'each_list: while let Some(next) = rest.pop() {
        out.append(next)?;
    }
    Ok(out)
}

/// The items that are there. Linear in all.
pub fn present<T: Drop>(alloc: Global, items: Items<Option<T>>) -> Result<Items<T>, AllocError>
    ensures { IfOk result (λ r. r ≡ present items) }
{
    let mut out = Items::new(alloc);
    let mut rest = reversed(alloc, items)?;
    'each_item: while let Some(next) = rest.pop() {
        if let Some(item) = next {
            out.push(item)?;
        }
    }
    Ok(out)
}

/// The first item, and then all others. Constant in the others.
pub fn prepended<T: Drop>(alloc: Global, first: T, others: Items<T>) -> Result<Items<T>, AllocError>
    ensures { IfOk result (λ r. r ≡ first ∷ others) }
{
    let mut out = Items::new(alloc);
    out.push(first)?;
    out.append(others)?;
    Ok(out)
}

/// The first item, and then those of the others that are there. Linear in the others.
pub fn present_after<T: Drop>(
    alloc: Global,
    first: T,
    others: Items<Option<T>>,
) -> Result<Items<T>, AllocError>
    ensures { IfOk result (λ r. r ≡ first ∷ present others) }
{
    let others = present(alloc, others)?;
    prepended(alloc, first, others)
}
