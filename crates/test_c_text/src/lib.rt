//! Tests of texts of C that are read, printed and run.
#![tactic(auto)]

#[cfg(test)]
mod tests;
