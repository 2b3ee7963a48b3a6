//! The names of each scope of a Python module (Language Reference, section 4.2): where they are bound, which of them are owned, and
//! the first fault among them.
//!
//! * `bindings`, `uses`, `statements`: one walk each over the trees, which lists bindings and uses;
//! * `kinds`: what kinds of bindings say;
//! * `facts`, `scope`: the bindings of one scope, by name; `usage`: the uses of one body, by name;
//! * `faults`: names that are bound again, and calls of variables; `owned`: the names that a function owns;
//! * `beside`: values that stay while a call may fail;
//! * `layers`: the scopes of a module, one in another; `module`: how they are read, and `error` why there are none;
//! * `first_fault`: the fault without the scopes.
#![tactic(auto)]

mod beside;
mod bindings;
mod error;
mod facts;
mod faults;
mod first_fault;
mod kinds;
mod layers;
mod module;
mod owned;
mod scope;
mod statements;
mod usage;
mod uses;

pub use error::ScopeError;
pub use first_fault::scope_fault;
pub use layers::{ClassScope, FunctionScope, Scopes};
pub use module::scopes;
pub use scope::Scope;
