//! Values that are made together. For any types, so that a proof knows nothing of how they are dropped.

ghost use Rattle.std.specs.Prelude.{◌≡◌, IfOk, Ok};

use rv_names::Memory;
use std::alloc::AllocError;

/// The value, with want of memory as this crate tells it.
pub fn as_memory<A: Drop>(made: Result<A, AllocError>) -> Result<A, Memory>
    ensures { IfOk result (λ x. made ≡ Ok x) }
{
    Ok(made?)
}

/// Two values, where there was memory for both.
pub fn both<A: Drop, B: Drop>(
    first: Result<A, Memory>,
    second: Result<B, Memory>,
) -> Result<(A, B), Memory>
    ensures first { IfOk result (λ x. first ≡ Ok x.0) }
    ensures second { IfOk result (λ x. second ≡ Ok x.1) }
{
    Ok((first?, second?))
}

/// Three values, where there was memory for each.
pub fn all_three<A: Drop, B: Drop, C: Drop>(
    first: Result<A, Memory>,
    second: Result<B, Memory>,
    third: Result<C, Memory>,
) -> Result<(A, B, C), Memory>
    ensures first { IfOk result (λ x. first ≡ Ok x.0) }
    ensures second { IfOk result (λ x. second ≡ Ok x.1) }
    ensures third { IfOk result (λ x. third ≡ Ok x.2) }
{
    Ok((first?, second?, third?))
}
