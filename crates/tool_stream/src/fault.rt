/// Why a walk over the lines of a file stops before the file's end.
#[derive(Clone, Copy, Debug, PartialEq, Eq, Drop)]
pub enum StreamFault<E> {
    /// The file can't be read.
    Read,
    /// An output can't be printed.
    Put,
    /// A line ends the walk.
    Line(E),
}
