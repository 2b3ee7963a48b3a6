//! Values of any types, beside one another, so that the functions that hold them know nothing of how they are dropped.

ghost use Rattle.std.specs.Prelude.{◌≡◌, Ok, Err, IfOk, IfErr};

/// The value, beside what a call gave. The call's failure is answered where it failed.
#[inline(always)]
pub fn beside<A: Drop, B: Drop, E: Drop>(first: A, second: Result<B, E>) -> Result<(A, B), E>
    ensures first { IfOk result (λ x. x.0 ≡ first) }
    ensures second { IfOk result (λ x. second ≡ Ok x.1) }
    ensures failed { IfErr result (λ e. second ≡ Err e) }
{
    match second {
        Ok(second) => Ok((first, second)),
        Err(error) => Err(error),
    }
}
