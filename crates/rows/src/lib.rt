//! Inequalities `left >= right` over access path trees, and their least solution: the engine of the analysis.
//!
//! Each callable has trees by place: of the nodes of its body, of its result, of what is wanted of its parameters, and of
//! what it puts into cells. A row says that the tree of a left place is above a right side. Rows read the nodes of the same
//! body, and of other callables what `Inputs` gives: the trees of callees, and what anybody puts into cells. A right side
//! is monotone in all of these, so there is a least solution; `least` finds it.
//!
//! * `places`: a `Place` of a callable;
//! * `inequalities`: a `Row`, its `Right` side, and `Moves`, which are done with a tree one after the other;
//! * `inputs`: what a body reads of other callables, and `told`: the same, kept in lists;
//! * `gathering`: what a call makes of the backward tree of a parameter of the callee;
//! * `values`: the tree of a right side;
//! * `readers`: the rows by the node that they read;
//! * `settling`: the least trees of the nodes, by a worklist;
//! * `outputs`: the trees of the other places, which no row reads;
//! * `solutions`: a `Solution`;
//! * `solving`: `least`;
//! * `laws`: what holds of all rows, and of all programs, whatever the order of work;
//! * `cores`: what holds of every state that an incremental core reaches.
//!
//! # Which rule of flow needs which right side
//!
//! Nodes are the forward tree of a local before a point, the backward tree of a local before a point, the value of an
//! expression, and what is wanted of it.
//!
//! | Rule | Rows |
//! |---|---|
//! | a parameter's declared sources; the declared sources of a global, an attribute, a result | `Known` into the node |
//! | a parameter's default; a local read; an assignment; a step of control that does not bind the local, forwards and backwards | `Local` with no moves |
//! | an iteration or unpacking | `Local` with `Part(Any)`, `Part(Keys)`, twice for a target of names; `Cells` of `Any` and `Keys` with the moves that come on top |
//! | an owned write of a literal step | `Local` with `Without(step)`; `Local` with `Under(step)` |
//! | an owned write by another key, an owned append | `Local` with no moves; `Local` with `Under(Any)`, `Under(Keys)` |
//! | another write, an unowned append, a name that a top level or class body binds | `Local` into `Put(step)`; for an import under another name `Cells` into `Put(Attr)` |
//! | a return, the end of `__init__` | `Local` into `Result` |
//! | a global read | `Cells(Attr name)` |
//! | a literal, a comparison, `not` | no row |
//! | an f-string, an operator | `Local` with `Collapse` for each part |
//! | `and`, `or`, a conditional | `Local` for each operand that can be the value |
//! | a list, a tuple, a dictionary | `Local` with `Under(Any)`, `Under(Key)`, `Under(Keys)` |
//! | a read of a step | `Local` with `Part(step)`; `Cells(step)` |
//! | a call of a project callable | `Outer` of `Result` with `Bump`; `Through` for each argument; `Local` with `Collapse` for a declared pass-through |
//! | what such a call puts into cells | `Puts` for each argument |
//! | a call of an external callable, a class with an external base | `Local` with `Collapse` for each argument |
//! | backwards: an assignment, an iteration | `Local`; `Local` with `Under(Any)`, `Under(Keys)` |
//! | backwards: an owned write | `Local` with `Part(step)`, `Part(Keys)`; `Local` with `Without(step)` |
//! | backwards: another write, a return, declared sinks | `Known`, an out to a cell or to the result at the root, or the sinks |
//! | backwards: a local occurs, an f-string, an operator, an operand | `Local`; `Local` with `Collapse` |
//! | backwards: an item, a value and a key of a display; a read | `Local` with `Part(step)`, `Part(Keys)`; `Local` with `Under(step)` |
//! | backwards: an argument of a call of a project callable | `Known` for declared sinks; `Carried`; `Wanted`; `Local` with `Collapse` for a declared pass-through |
//! | backwards: an argument of another call | `Known`; `Local` with `Collapse` |
//! | what is wanted of a parameter | `Local` into `Back(parameter)` |
#![tactic(auto)]

mod cores;
mod gathering;
mod inequalities;
mod inputs;
mod laws;
mod outputs;
mod places;
mod readers;
mod settling;
mod solutions;
mod solving;
#[cfg(test)]
mod tests;
mod told;
mod values;

pub use cores::{
    closed_sets_reset, each_step_keeps, numbers_do_not_matter, reached_below, reached_keeps,
    settled_is_least, the_start_has_the_facts,
};
pub use gathering::{carried, through, wanted};
pub use inequalities::{Moves, Right, Row};
pub use inputs::Inputs;
pub use laws::{
    any_order_settles, joined_cells_suffice, lesser_inputs_keep_a_solution, models_settle,
    only_what_rows_read_matters, right_sides_are_monotone, settled_callables_stay,
    the_least_solution_is_one, untouched_rows_stay_solved,
};
pub use places::Place;
pub use solutions::{PutTree, Solution};
pub use solving::least;
pub use told::{CalleeTrees, Told};
pub use values::moved_by;
