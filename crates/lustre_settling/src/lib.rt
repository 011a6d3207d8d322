//! Laws of the flows of Lustre files: what a tick leaves is the least solution of the equations, in whatever order they are tried.
#![tactic(auto)]

mod flows;
mod passes;
mod solutions;

pub use flows::{flows_of_more_rows, ordered_ticks_are_done, stuck_exactly};
pub use passes::{one_value_each, passes_keep_order, passes_settle, ticks_come_to_rest};
pub use solutions::{settled_is_least, settled_is_only, solutions_are_kept};
