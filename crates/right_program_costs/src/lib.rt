//! The whole program: the calls, stores and steps of a tick inside each instance.
//!
//! Proved: where the instance keeps the relation of its code, and each of its children serves and has
//! its accounts, the acts of a whole tick give each instance inside its calls and no other, store each
//! value once at most, and take no more steps than the budgets of all systems inside; and a reset
//! calls nothing that is logged and stores no value.
#![tactic(auto)]

mod laws;

pub use laws::accounts_follow;
