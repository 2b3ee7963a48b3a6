//! Models (summaries) of callables: what a call gives, what is wanted of its arguments, and what it puts into cells.
//!
//! A model has a tree for the result, one for each parameter, and one for each cell into which the callable puts something.
//! Models are ordered tree by tree: a greater one says more. A cell is a step, which stands for that part of any object.
//!
//! * `lists`: the `Trees` of the parameters;
//! * `puts`: the `Puts`, from a cell to its tree;
//! * `models`: a `Model`, its order and its join;
//! * `laws`: what holds of all models.
#![tactic(auto)]

mod laws;
mod lists;
mod models;
mod puts;

pub use laws::{
    cells_at_distributes_over_join, cells_at_is_least_upper_bound, cells_at_is_monotone,
    empty_is_least, join_is_least_upper_bound, order_is_partial, parameters_are_kept,
    put_is_least_upper_bound, puts_are_read_as_put, room_falls,
};
pub use lists::Trees;
pub use models::{Model, model_le};
pub use puts::Puts;
