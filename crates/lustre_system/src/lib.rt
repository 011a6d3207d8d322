//! A diagram as Lustre: a node for each system, made from its own rows.
#![tactic(auto)]
