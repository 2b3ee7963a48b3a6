//! Tests of the crate `py_lexer`, and nothing else: texts and their tokens or faults.
#![tactic(auto)]

#[cfg(test)]
mod tests;
