//! The text that shows the output functions of each system, with certificates that no interface has fewer.
#![tactic(auto)]

mod cutting;
mod fault;
mod following;
mod head;
mod laws;
mod lines;
mod parsing;
mod printing;
mod reading;
mod report;
mod stop;

pub use fault::ReportFault;
pub use laws::{reports_are_one, reports_on_are_right, stops_are_faults};
pub use printing::print_report;
pub use reading::read_report;
pub use report::SystemReport;
