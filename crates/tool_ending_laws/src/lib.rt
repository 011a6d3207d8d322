//! What holds of each call of the tool, by the way in which it ended.
#![tactic(auto)]

mod laws;

pub use laws::{
    each_status_is_exact, endings_are_complete, endings_do_right, faultless_is_calm,
    faults_are_counted, five_is_needed, five_is_read_fault, nothing_is_written, statuses_are_exact,
    sure_are_done, sure_hosts_are_sure, usage_is_exact,
};
