//! Tests of the crate `pysa_syntax`, and nothing else: model files and their declarations or faults.
#![tactic(auto)]

#[cfg(test)]
mod tests;
