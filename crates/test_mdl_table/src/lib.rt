//! Tests of the tables of models.
#![tactic(auto)]

#[cfg(test)]
mod tests;
