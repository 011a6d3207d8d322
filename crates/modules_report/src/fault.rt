/// Why a text isn't read as reports.
#[derive(Clone, Copy, Debug, PartialEq, Eq, Drop)]
pub enum ReportFault {
    /// It is the text of no reports. `line`, counted from 1, is the first line that can't follow the lines before it in
    /// any such text, or the one after the last where the text only ends too soon; a number that 32 bits don't hold is
    /// given as the greatest that they do.
    Form { line: u32 },
    /// There is no memory.
    Memory,
}
