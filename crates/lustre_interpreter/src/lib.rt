//! The flows of a file of Lustre, tick by tick.
#![tactic(auto)]

mod flows;
mod places;
mod ticks;

pub use flows::Flows;
pub use lustre_flows::{LusStuck, LusWhy};
