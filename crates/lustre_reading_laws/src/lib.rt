//! Laws of reading Lustre: each text has one reading or one first error, and what is read is lawful.
#![tactic(auto)]

mod laws;

pub use laws::{faultless_is_spelled, readings_are_lawful, texts_are_judged};
