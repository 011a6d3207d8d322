//! A block's parameters with their defaults, and the forms of numbers, types and sample times.
#![tactic(auto)]

mod block_type;
mod defaults;
mod fault;
mod forms;
mod language;
mod texts;
mod times;

pub use block_type::BlockType;
pub use defaults::Defaults;
pub use fault::ParamFault;
pub use forms::{number, type_of};
pub use times::sample_time;
