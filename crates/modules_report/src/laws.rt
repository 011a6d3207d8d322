ghost use Rattle.modules_report.specs.Reading.{ReportsAreOne};
ghost use Rattle.modules_report.specs.Reports.{ReportsOnAreRight};
ghost use Rattle.modules_report.specs.Stops.{StopsAreFaults};

/// A text is that of at most one list of reports.
#[tactic(auto, using(crate::proofs::OneReport::reports_are_one))]
pub fn reports_are_one()
    ensures { ReportsAreOne }
{}

/// Where the Inports and the Outports of a system have its ports, the report on it is right for what its outputs need.
pub fn reports_on_are_right()
    ensures { ReportsOnAreRight }
{}

/// Where the lines of some systems are read, and what is after them is neither the last line nor can be read as a
/// system, no text of reports begins with the lines that are read and the next one.
pub fn stops_are_faults()
    ensures { StopsAreFaults }
{}
