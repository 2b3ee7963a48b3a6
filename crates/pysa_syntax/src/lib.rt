//! The reader of Pysa's model files, which end in `.pysa`: what they declare of callables, attributes and names.
//!
//! * `reading`: `read_models`, the models of a text, or its one fault;
//! * `decl`: a `Decl` and its parts;
//! * `error`: why a text gave no models;
//! * `laws`: what holds of each text: it has one answer, and no form that isn't supported is read;
//! * `models`, `params`, `marks`, `words`: the grammar's productions, by recursive descent over the tokens;
//! * `symbol`: the terminal symbol that the grammar sees of a token;
//! * `forms`: the forms that aren't supported, and where the first begins;
//! * `lists`: lists that change hands item by item.
//!
//! `specs/Grammar.antt` has the grammar, of the combinators of the crate `phrases`: what a list of tokens spells. `specs/Faults.antt`
//! says where a fault stands, by that relation alone, and `specs/Forms.antt` which forms there are.
#![tactic(auto)]

mod decl;
mod error;
mod forms;
mod laws;
mod lists;
mod marks;
mod models;
mod params;
mod reading;
mod symbol;
mod words;

pub use decl::{Decl, DeclMark, DeclParam, ParamKind};
pub use error::ModelError;
pub use laws::{no_form_is_read, one_answer, one_reading};
pub use reading::read_models;
