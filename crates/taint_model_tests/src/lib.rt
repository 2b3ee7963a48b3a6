//! Tests of the crate `taint_model`, and nothing else: models, their order and their join.
#![tactic(auto)]

#[cfg(test)]
mod tests;
