//! Laws of reading C: each text has one reading or one first error, and recursive descent finds it.
#![tactic(auto)]

mod agreement;
mod laws;

pub use agreement::{faults_agree, limits_agree, needs_agree, readings_agree, refusals_agree};
pub use laws::texts_agree;
