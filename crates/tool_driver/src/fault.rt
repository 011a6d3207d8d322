use base_core::Port;
use c_syntax::Stuck;

/// Why a driver made no call, or, at `Stuck`, where its machine is stuck in one.
#[derive(Clone, Copy, Debug, PartialEq, Eq, Drop)]
pub enum DriveFault {
    /// The function was called in this tick.
    Twice {
        function: u32,
    },
    /// Functions weren't called in this tick: bit j - 1 for function j.
    Early {
        missing: u64,
    },
    /// The value of an input is out of its type.
    Value {
        input: Port,
    },
    /// An input was given another value in this tick.
    Unlike {
        input: Port,
        first: i64,
        second: i64,
    },
    /// The machine is stuck, at a line of its program.
    Stuck(Stuck),
}
