//! One system: its code has the shape of a system's code.
#![tactic(auto)]

mod laws;

pub use laws::{
    code_is_used, code_keeps_rules, code_states_once, emitted_code_has_shape,
    functions_give_their_outputs, heads_are_public, outputs_have_places, slots_are_right,
    struct_has_its_slots,
};
