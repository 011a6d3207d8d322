//! A file of Lustre is right for a diagram on whatever lines its equations are.
#![tactic(auto)]

mod laws;

pub use laws::lines_mean_nothing;
