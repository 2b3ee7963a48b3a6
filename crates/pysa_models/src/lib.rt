//! What Pysa's models declare of each qualified name: marks by number, and the kinds that the configuration doesn't declare.
//!
//! * `declared`: `declare`, and a `Declared`, which is asked by qualified name;
//! * `declaration`: a `Declaration`, what all models of one name declare, and what is read from it;
//! * `models`: the models of all files, one after the other;
//! * `marks`: marks by number;
//! * `signatures`: a model with `def` by number;
//! * `arranging`: models in nearly the order of their names;
//! * `leaves`: the names that declare a mark of a known kind, by number;
//! * `joining`: the models of each name, joined;
//! * `notes`: the kinds that are unknown;
//! * `laws`: what holds of leaves and of the order of names.
//!
//! `specs/Models.antt` says what models of a name declare, `specs/Leaves.antt` which names are leaves, and `specs/Notes.antt`
//! which notes there are.
#![tactic(auto)]

mod arranging;
mod declaration;
mod declared;
mod joining;
mod laws;
mod leaves;
mod marks;
mod models;
mod notes;
mod signatures;

pub use declaration::{Declaration, Parameter, Signature};
pub use declared::{Declared, declare};
pub use laws::{leaves_stand_at_their_numbers, order_is_that_of_printed_names};
