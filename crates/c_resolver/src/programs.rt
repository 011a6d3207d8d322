// Programs.
ghost use Rattle.std.specs.Prelude.{◌≡◌, ◌<◌, ◌^◌, [], length, IfOk};
ghost use Rattle.c_syntax.specs.Plain.{program_tree};
ghost use Rattle.c_rules.specs.Resolve as rules;
ghost use Rattle.c_grammar.specs.WrittenTrees as written;
ghost use Rattle.c_rules.specs.Gives.{Gives};
ghost use Rattle.c_resolver.specs.Programs as definitions;
ghost use Rattle.c_resolver.specs.Scopes.{known_of};

use crate::known::Known;
use crate::procedures::resolve_procedures;
use crate::pures::resolve_pures;
use crate::structs::resolve_structs;
use crate::table::Table;
use c_grammar::{ReadCFault, WrittenProgram};
use c_rules::{on_line, unless_fault};
use c_syntax::{CKind, Program};
use std::alloc::Global;
use std::mem;

/// What is known before the first definition.
fn nothing_known<'a>(alloc: Global) -> Known<'a>
    ensures { known_of result ≡ record { pures = []; structs = []; procedures = []; chains = [] } }
{
    Known {
        pures: Table::new(alloc),
        structs: Table::new(alloc),
        field_names: Vec::new(alloc),
        procedures: Table::new(alloc),
        chains: Vec::new(alloc),
    }
}

/// Whether the root's struct and its two procedures are there.
fn has_root(known: &Known) -> bool
    ensures { result ≡ rules.has_root (known_of known.now) }
{
    known.structs.contains(b"root")
        && known.has_procedure(b"root_start")
        && known.has_procedure(b"root_step")
}

/// The program of these definitions.
fn program_of(known: Known) -> Program
    ensures tree { program_tree result ≡ definitions.program_with (known_of known.entry) }
    ensures few { length result.procedures.items < 2 ^ 32 }
{
    let Known {
        pures,
        structs,
        procedures,
        ..
    } = known;
    Program {
        pure: pures.into_items(),
        structs: structs.into_items(),
        procedures: procedures.into_items(),
    }
}

/// The program of what is known and of more definitions, where the root's are among them. What is known goes into it.
fn resolve_definitions<'a>(
    alloc: Global,
    last: u32,
    known: &mut Known<'a>,
    p: &WrittenProgram<'a>,
) -> Result<Program, ReadCFault>
    ensures resolved { Gives program_tree result
        (definitions.program_behind last (known_of known.old) (written.program_of p.now)) }
    ensures few { IfOk result (λ program. length program.procedures.items < 2 ^ 32) }
{
    resolve_pures(alloc, known, p.pures.as_slice())?;
    resolve_structs(alloc, known, p.structs.as_slice())?;
    resolve_procedures(alloc, known, p.procedures.as_slice())?;
    on_line(last, unless_fault(has_root(known), CKind::Name))?;
    Ok(program_of(mem::replace(known, nothing_known(alloc))))
}

/// What a written program stands for; at the last line of its text a missing root is reported.
pub fn resolve_program(alloc: Global, last: u32, p: &WrittenProgram) -> Result<Program, ReadCFault>
    ensures resolved { Gives program_tree result (rules.resolve_program last (written.program_of p.now)) }
    ensures few { IfOk result (λ program. length program.procedures.items < 2 ^ 32) }
{
    let mut known = nothing_known(alloc);
    resolve_definitions(alloc, last, &mut known, p)
}
