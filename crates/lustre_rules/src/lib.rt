//! The static rules of Lustre: the file that a written one stands for, and the first error of a text that has no reading.
#![tactic(auto)]
