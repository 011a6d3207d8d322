//! Tests of `compile`, `profile` and `gen`, and of errors at each call of every command.
#![tactic(auto)]

#[cfg(test)]
mod tests;
