//! What is answered where a module has no scopes.

use py_lexer::Form;
use py_literals::place::Pos;
use rv_names::{Memory, Name};

/// Why a module has no scopes.
#[derive(Drop)]
pub enum ScopeError {
    /// The name is bound again where that isn't supported, at this place.
    Twice(Name, Pos),
    /// A variable is called by its bare name, which stands at this place: the form is `VariableCall`.
    Unsupported(Form, Pos),
    /// There is no memory left for the answer.
    Memory,
}

impl From<Memory> for ScopeError {
    ghost use Rattle.std.specs.Prelude.{◌≡◌};
    ghost use Rattle.py_scopes.specs.declared.error.ScopeError.TheVariants as errors;

    ghost from_gives = { λ _ error. error ≡ errors.Memory };

    fn from(_error: Memory) -> ScopeError {
        ScopeError::Memory
    }
}
