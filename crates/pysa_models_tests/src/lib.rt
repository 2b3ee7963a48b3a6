//! Tests of the crate `pysa_models`, and nothing else: models of names under a configuration.
#![tactic(auto)]

#[cfg(test)]
mod tests;
