//! Tests of what is read of a model: its text, parameters, systems and wiring.
#![tactic(auto)]

#[cfg(test)]
mod tests;
