//! Simple statements of Python, and the parts of headers, read from their tokens (Language Reference, chapter 7, 8.3, 8.7 and 8.8).
//!
//! Each function that reads meets one production, as `py_ast` defines it (`specs/Statements.antt`, `specs/Literals.antt`,
//! `specs/Files.antt`): it gives the production's tree and the tokens behind it, or the fault of the production's reader, or says
//! that there is no memory left for the tree. Each is linear in the tokens that it takes.
//!
//! * `words`: which tokens begin what;
//! * `steps`: what was read, kept while more is read;
//! * `imports`: names, dotted names and imports;
//! * `names`: names of loops, parameters, bases of classes;
//! * `simple`: all other simple statements, and what they are made of;
//! * `literals`, `decorators`: decorators and their literal arguments.
#![tactic(auto)]

pub mod decorators;
pub mod imports;
pub mod literals;
pub mod names;
pub mod simple;
pub mod steps;
pub mod words;
