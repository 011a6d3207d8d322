//! The rows of a model: what the row of each block says and which rows it reads, or the first refusal.
#![tactic(auto)]

mod blocks;
mod groups;
mod interiors;
mod lists;
mod members;
mod model;
mod reading;
mod row_texts;
mod rows;
mod verdict;
mod wires;
mod wirings;

pub use verdict::rows_of;
