//! Finds the sample times of a diagram's rows, or what is wrong with them.
#![tactic(auto)]

mod base;
mod bases;
mod cycles;
mod feeds;
mod given;
mod hits;
mod hull;
mod infer;
mod inputs;
mod inside;
mod rates;
mod run;
mod running;
mod search;
mod texts;
mod ticks;
mod times;
mod triggers;

pub use hits::hit;
pub use infer::infer_times;
