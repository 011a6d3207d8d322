//! Tests of the compiler, of reports and of scripts.
#![tactic(auto)]

#[cfg(test)]
mod tests;
