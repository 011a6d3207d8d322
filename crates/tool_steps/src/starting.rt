ghost use Rattle.std.specs.Prelude.{IfOk, IfErr};
ghost use Rattle.tool_endings.specs.Acting.{StartsFrom, NotStarted};

use c_interpreter::{Machine, NewFault};
use c_reader::{ReadCFault, read_c};
use std::alloc::Global;
use tool_endings::Ending;

/// The machine of the program that a C text is, after its start.
///
/// # Errors
///
/// `CodeRefused` with the first error of a text that is no program, `Stuck` where the program is stuck in its start, and
/// `NoMemory` where memory ran out.
pub fn started(alloc: Global, bytes: &[u8]) -> Result<Machine, Ending>
    ensures started { IfOk result (λ machine. StartsFrom bytes.now machine) }
    ensures ended { IfErr result (λ ending. NotStarted bytes.now ending) }
{
    let checked = match read_c(alloc, bytes) {
        Ok(checked) => checked,
        Err(ReadCFault::Refused(fault)) => return Err(Ending::CodeRefused(fault)),
        Err(ReadCFault::Memory) => return Err(Ending::NoMemory),
    };
    match Machine::new(alloc, checked) {
        Ok(machine) => Ok(machine),
        Err(NewFault::Stuck(at)) => Err(Ending::Stuck(at)),
        Err(NewFault::Memory) => Err(Ending::NoMemory),
    }
}
