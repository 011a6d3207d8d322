//! Tests of texts of Lustre that are read, printed and run.
#![tactic(auto)]

#[cfg(test)]
mod tests;
