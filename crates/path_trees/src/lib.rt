//! Access path trees: finite maps from a path and a mark to a distance, in which a taint analysis computes.
//!
//! A path says where in a value a mark stands (`.a["k"]`), and a distance how far its origin is. Of two distances at one
//! place the lesser counts, so a tree with lesser distances, or more places, is greater.
//!
//! * `steps`: a `Step` of a path, an attribute or a key;
//! * `paths`: a `Path` of at most four steps;
//! * `marks`: a `Mark`, which is a source, a sink, or an out that leads to a `Port`;
//! * `spots`: a `Spot`, a path with a mark, and an `Entry`, a spot with a distance;
//! * `moves`: a `Move`, which takes each entry of a tree by itself;
//! * `merging`: entries in order, made one list in order;
//! * `trees`: a `Tree`, its order and its join;
//! * `operations`: what is done with trees;
//! * `touching`: whether a source meets a sink;
//! * `laws`: what holds of all trees.
#![tactic(auto)]

mod laws;
mod marks;
mod merging;
mod moves;
mod operations;
mod paths;
mod spots;
mod steps;
#[cfg(test)]
mod tests;
mod touching;
mod trees;

pub use laws::{
    join_is_least_upper_bound, moves_are_monotone, moves_distribute_over_join,
    operations_are_monotone, operations_distribute_over_join, order_is_partial, room_falls,
    touches_is_monotone,
};
pub use marks::{Mark, Port};
pub use moves::Move;
pub use operations::{apply, bump, collapse, graft, join, le, part, sub, under, without};
pub use paths::Path;
pub use spots::{Entry, Spot};
pub use steps::Step;
pub use touching::touches;
pub use trees::Tree;
