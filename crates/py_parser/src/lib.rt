//! Python files, read from their tokens (Language Reference, chapters 7 to 9).
//!
//! Each function of a module reads one production, as `py_ast` defines it (`specs/Statements.antt`, `specs/Files.antt`). Simple
//! statements and the parts of headers are read by `py_simple`.
//!
//! * `lines`: simple statements up to the end of a line;
//! * `blocks`, `definitions`: statements with blocks;
//! * `suites`: what stands behind the `:` of a block;
//! * `lists`: lists to which what is read is added;
//! * `files`: whole files;
//! * `reading`: the module of a file, or its fault;
//! * `parsing`: `parse` and `parse_with`, a text with its module, or the text's fault.
#![tactic(auto)]

mod blocks;
mod definitions;
mod files;
mod lines;
mod lists;
mod parsing;
mod reading;
mod suites;

pub use parsing::{FileError, parse, parse_with};
pub use reading::{GrammarError, module_of_tokens};
