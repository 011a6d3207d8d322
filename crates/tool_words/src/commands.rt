/// What words ask for, with the names of the files and the numbers.
#[derive(Clone, Copy, Debug, PartialEq, Eq, Drop)]
pub enum Command<'a> {
    /// Compiles the file `model` into the file `code`.
    Compile {
        model: &'a str,
        code: &'a str,
    },
    /// Compiles the file `model` into the file `code`, and runs what was written over the file `trace`.
    Run {
        model: &'a str,
        code: &'a str,
        trace: &'a str,
    },
    /// Runs the file `code` over the file `trace`.
    Exec {
        code: &'a str,
        trace: &'a str,
    },
    /// Prints the report on the systems of the file `model`.
    Profile {
        model: &'a str,
    },
    /// Compiles the file `model` into the file `code`, and drives the subsystem of this word by the calls of the file
    /// `script`: `top` or the number of a SubSystem row.
    Drive {
        model: &'a str,
        code: &'a str,
        subsystem: &'a str,
        script: &'a str,
    },
    /// Writes the model that is made from `start` in `size` subsystems into the file `model`, compiles it into the file
    /// `code`, and runs what was written over the trace that belongs to it. `start` is 1 to 2,147,483,646 and `size` 1 to 2,499.
    Gen {
        start: u32,
        size: u32,
        model: &'a str,
        code: &'a str,
    },
    /// Writes the file `model` as Lustre into the file `file`.
    Lustre {
        model: &'a str,
        file: &'a str,
    },
    /// Runs the flows of the file `file` of Lustre over the file `trace`.
    Flow {
        file: &'a str,
        trace: &'a str,
    },
}
