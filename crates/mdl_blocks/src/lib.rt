//! What each block of a model says: its kind with its parameters, its type and its time; or what is wrong with it.
#![tactic(auto)]

mod block;
mod bodies;
mod fault;
mod kind;
mod laws;
mod numbers;
mod parameters;
mod peers;
mod read;
mod row;
mod signs;
mod texts;
mod words;
mod written;

pub use block::{Block, Body};
pub use fault::Fault;
pub use kind::BlockKind;
pub use laws::the_first_parameter_is_told;
pub use numbers::number_up_to;
pub use peers::Peers;
pub use read::read_block;
pub use row::RowText;
pub use signs::SignMask;
pub use written::{WrittenConstant, WrittenTime, WrittenType};
