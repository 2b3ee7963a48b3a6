//! The worklist of the incremental core: a list of ids without repeats, and a set of ids, each with a room.
//!
//! * `links`: `Links`, the list, in which each step takes constant time;
//! * `flags`: `Flags`, the set;
//! * `chain`: the links by index, on which `Links` stands;
//! * `memory`: what the calls answer where there is no memory left.
//!
//! Only the calls that make room take memory.
#![tactic(auto)]

mod chain;
mod flags;
mod links;
mod memory;

pub use flags::Flags;
pub use links::Links;
pub use memory::Memory;

#[cfg(test)]
mod tests;
