//! Tests of numbers, types, files and lines of traces.
#![tactic(auto)]

#[cfg(test)]
mod tests;
