//! What is claimed: when C code is right for a table of rows, and when a system's code is right by itself.
#![tactic(auto)]

mod laws;

pub use laws::{
    lawful_scripts_fit, lawful_scripts_run, renewals_mean_no_lines, rows_mean_no_lines,
    scripts_grow, shape_means_no_lines, some_code_is_right, text_of_code_is_right,
};
