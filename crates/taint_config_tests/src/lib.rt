//! Tests of the crate `taint_config`, and nothing else: configurations and their rules or faults.
#![tactic(auto)]

#[cfg(test)]
mod tests;
