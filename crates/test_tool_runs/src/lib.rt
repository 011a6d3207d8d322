//! Tests of `run`, `exec` and `drive`.
#![tactic(auto)]

#[cfg(test)]
mod tests;
