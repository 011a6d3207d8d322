//! Tests of blocks, activity and orders of a diagram, and of its profiles, schedules, certificates and reports.
#![tactic(auto)]

#[cfg(test)]
mod tests;
