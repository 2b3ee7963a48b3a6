//! Which form that is left out of the subset a run of tokens and the token behind it tell (Language Reference, 6.2 to 6.14).
//!
//! A reader of expressions stops at a token behind the longest run with which an expression of the subset begins. Where the
//! full grammar goes on with that token, the token tells a form of Python that the subset leaves out.
//!
//! * `telling`: `told`, the form and its place;
//! * `role`: what a token is to the forms;
//! * `level`: the innermost open bracket of a run, and what stands inside of it;
//! * `primary`: the primary that ends a run, and what it calls;
//! * `spot`: what may begin behind a run.
//!
//! And behind a run of a file, of which the expression is a part:
//!
//! * `statement`: `told_in_file`, the form and its place;
//! * `part`: the last line of a run, the statement in it, and the expression in that;
//! * `block`: the block round the statement;
//! * `beginning`: what is told where a statement may begin;
//! * `header`: what is told in headers, imports and decorators;
//! * `simple`: what is told in a statement that begins with an expression;
//! * `classes`: what single tokens begin.
#![tactic(auto)]

mod beginning;
mod block;
mod classes;
mod header;
mod level;
mod part;
mod primary;
mod role;
mod simple;
mod spot;
mod statement;
mod telling;
#[cfg(test)]
mod tests;

pub use statement::told_in_file;
pub use telling::{ToldForm, told};
