//! When a file of Lustre is right for a diagram, and what the instances of its nodes say of each system.
#![tactic(auto)]
