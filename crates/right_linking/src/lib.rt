//! The whole program: where each struct, field and procedure of the systems is in it, and that they do there what
//! they do by themselves.
//!
//! Proved of each such program: each system is known with its code, and by the header that the system
//! around it sees; its struct, fields and procedures are where its code is among the codes, and
//! those of the root come last; its procedures take what its header says, and do what its code does
//! among the procedures of its children.
//!
//! Proved to follow: where each instance lives through runs, and the root takes single ticks, the root
//! answers each trace from any fields whose instance of `top` was started; a program that is restarted
//! from any fields gives the outputs of the one run within the bound on steps, by the calls of each
//! tick, and each system answers its calls in any lawful order; a lawful program with each part of
//! right code is code for the diagram.
#![tactic(auto)]

mod laws;

pub use laws::{
    code_follows, codes_have_views, fields_have_places, offers_are_of_headers, procedures_follow,
    root_has_places, runs_follow, systems_have_places, systems_offer_theirs, traces_follow,
};
