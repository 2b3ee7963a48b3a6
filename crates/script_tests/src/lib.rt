//! Tests of the crate `script`, and nothing else: commands in bytes that come in pieces.
#![tactic(auto)]

#[cfg(test)]
mod tests;
