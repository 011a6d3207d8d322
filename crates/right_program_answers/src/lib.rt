//! The whole program: it answers calls from outside in any lawful order.
//!
//! Proved to follow: where instances live through runs, each that is as its start left it answers its
//! calls in any lawful order.
#![tactic(auto)]

mod laws;

pub use laws::answers_follow;
