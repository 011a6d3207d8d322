//! Tests of sample times, nodes and runs of small models.
#![tactic(auto)]

#[cfg(test)]
mod tests;
