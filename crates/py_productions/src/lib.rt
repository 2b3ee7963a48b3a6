//! The grammar of Python files as the subset's productions write it, and what is read by left-factored phrases: they spell the same.
//!
//! * `laws`: the laws, as the contracts of functions.
#![tactic(auto)]

mod laws;

pub use laws::{
    argument_lists, assignments, bases, calls, decorators, displays, expressions, imports, lines,
    loops, members, signatures, simple_statements,
};
