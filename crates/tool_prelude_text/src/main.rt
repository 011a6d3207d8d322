//! A program that prints the eight pure functions of the emitted C, for the trials.
#![tactic(auto)]

ghost use Rattle.std.specs.Prelude.{IfOk};
ghost use Rattle.c_syntax.specs.Tree.{ProgramTree};
ghost use Rattle.c_rules.specs.Reading.{IsTextOf};
ghost use Rattle.emit_prelude.specs.Rules.{IsPrelude};

use crate::least::program;
use base_core::Memory;
use std::alloc::Global;
use std::process::ExitCode;

mod least;

/// The statuses where standard output takes no more, and where there is no memory.
const NOT_WRITTEN: u8 = 7;

const NO_MEMORY: u8 = 10;

/// The text of a program whose pure functions are the eight.
fn text(alloc: Global) -> Result<Vec<u8>, Memory>
    ensures { IfOk result (λ text. (p : ProgramTree) × IsPrelude p.pures × IsTextOf text.items p) }
{
    let program = program(alloc)?;
    c_printer::print(alloc, &program)
}

fn main(rt: HostRuntime) -> ExitCode {
    let Ok(text) = text(rt.alloc()) else {
        return ExitCode::from(NO_MEMORY);
    };
    match rt.write_all(&text) {
        Ok(()) => ExitCode::SUCCESS,
        Err(_) => ExitCode::from(NOT_WRITTEN),
    }
}
