//! Why reading stops.

ghost use Rattle.std.specs.Prelude.{◌≡◌};
ghost use Rattle.phrases.specs.declared.fault.Stop.TheVariants.{Memory};

use std::alloc::{AllocError, AllocFailed};

/// What is wrong with a token that a grammar does not take.
#[derive(Clone, Copy, Debug, PartialEq, Eq)]
pub enum Fault {
    /// No spelled list goes on with this token, or the tokens end here and are not yet spelled.
    Syntax,
    /// This token opens one nesting more than there is room for.
    TooDeep,
}

/// Why a function that reads tokens gave no value.
#[derive(Drop)]
pub enum Stop<'a, T> {
    /// Memory ran out.
    Memory,
    /// A fault, and the tokens from its place to their end.
    Fault(Fault, &'a [T]),
}

impl<T> From<AllocError> for Stop<'_, T> {
    ghost from_gives = { λ _ e. e ≡ Memory };

    fn from(_error: AllocError) -> Self {
        Stop::Memory
    }
}

impl<T, V: Drop> From<AllocFailed<V>> for Stop<'_, T> {
    ghost from_gives = { λ _ e. e ≡ Memory };

    fn from(_error: AllocFailed<V>) -> Self {
        Stop::Memory
    }
}
