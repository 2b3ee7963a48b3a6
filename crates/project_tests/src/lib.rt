//! Tests of a project's files and of their journal, and nothing else: what no clause of these crates says, that their calls succeed.
//!
//! * `edits`: of the journal;
//! * `files`: of paths and of the live files.
#![tactic(auto)]

#[cfg(test)]
mod edits;
#[cfg(test)]
mod files;
