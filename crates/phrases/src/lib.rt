//! Phrases over tokens: what a grammar spells, where it opens one nesting too many, how it is read, and the laws that tie the three.
//!
//! A grammar is put together of seven: a token, a token that opens a nesting, nothing, a sequence, one of two, any number,
//! and a series, whose items are each in a state (`specs/Phrases.antt`, `specs/Series.antt`). Each carries a relation of
//! what a list of tokens spells, and a reader, a function on lists. A production of a grammar is then one definition and
//! one law, and the side conditions of the law are computed.
//!
//! `Laws` (`specs/Laws.antt`) ties the reader to the relation, `laws` has it of each of the seven, and `verdict` what follows
//! for a whole grammar: the longest run that some spelled list begins with, the exact place of a fault, and one value a list.
//! `proofs/Nested.antt` has the laws of a grammar at every depth, from those of its layer. `read` has the loops of a recursive
//! descent over slices, which answer what the readers do, and `example` a small grammar that shows the whole at work.
#![tactic(auto)]

pub mod example;
mod fault;
mod grammar;
mod laws;
mod read;
mod verdict;

pub use fault::{Fault, Stop};
pub use grammar::{Classed, Grammar, Productions, SeriesItems};
pub use laws::{
    either_is_lawful, larger_sets_are_lawful, many_is_lawful, never_is_lawful, nothing_is_lawful,
    opener_is_lawful, sequence_is_lawful, series_is_lawful, token_is_lawful,
};
pub use read::{many, series};
pub use verdict::{one_value, outcome_is_true, spelled_is_read, taken_is_spelled};
