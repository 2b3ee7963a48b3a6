//! Expressions, read from tokens (Language Reference, chapter 6), by recursive descent.
//!
//! Each function answers what the reader of its phrase does, or gives the tree that its production gives, as `py_ast` defines
//! them. Only what opens a nesting recurses: what stands in brackets and between operators is read by functions that are passed
//! the reader of one expression, inversion or factor.
//!
//! * `reading`: the expression at a place of a text's tokens, or its fault (`error`);
//! * `expr`: an expression with room for so many nestings, and what leads from it to an operand;
//! * `logic`, `operator`: the levels of operators;
//! * `primary`, `atom`, `inner`: primaries, atoms, and the lists in brackets;
//! * `parts`: productions in which no expression nests;
//! * `class`: the classes of tokens, as one token of lookahead tells them;
//! * `token`: single tokens;
//! * `build`: the nodes of productions, made of their parts;
//! * `steps`: what waits while more is read, for values of any type;
//! * `strings`: strings in a row;
//! * `laws`: what holds of the answers.
#![tactic(auto)]

mod atom;
pub mod build;
pub mod class;
pub mod error;
pub mod expr;
mod inner;
pub mod laws;
mod logic;
mod operator;
pub mod parts;
mod primary;
pub mod reading;
pub mod steps;
pub mod strings;
pub mod token;

pub use error::SyntaxError;
pub use reading::expression;
