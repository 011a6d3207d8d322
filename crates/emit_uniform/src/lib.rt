//! When the code of subsystems that are the same is equal but for the numbers of their rows.
#![tactic(auto)]
