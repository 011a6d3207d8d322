// A whole text.
ghost use Rattle.std.specs.Prelude.{◌≡◌, ◌<◌, ◌^◌, length, IfOk, IfErr, OnErr};
ghost use Rattle.c_syntax.specs.Lawful.{IsLawful};
ghost use Rattle.c_syntax.specs.Plain.{program_tree};
ghost use Rattle.c_reading_laws.specs.ReadText.{read_text};
ghost use Rattle.c_rules.specs.Gives.{Gives};
ghost use Rattle.c_reader.specs.Reading.{IsRead, IsReadFault};

use c_checked::Checked;
use c_grammar::ReadCFault;
use c_outputs::check_root;
use c_parser::parse_c;
use c_resolver::resolve_program;
use c_syntax::Program;
use c_tokens::last_line;
use std::alloc::Global;

/// The program of a text, its names resolved.
fn read_program(alloc: Global, bytes: &[u8]) -> Result<Program, ReadCFault>
    ensures read { Gives program_tree result (read_text bytes.now) }
    ensures few { IfOk result (λ program. length program.procedures.items < 2 ^ 32) }
{
    let written = parse_c(alloc, bytes)?;
    resolve_program(alloc, last_line(bytes), &written)
}

/// The one program of a C text of the subset in `docs/FORMATS.md`.
///
/// # Errors
///
/// `Refused` exactly where the text has no reading, with its first error: `Syntax` or `Deep` at the first token with which no
/// file goes on or that opens something beyond a limit, else `Name`, `TypeRule` or `Deep` at the first construct that breaks a
/// static rule. `Memory` where memory ran out.
pub fn read_c(alloc: Global, bytes: &[u8]) -> Result<Checked, ReadCFault>
    ensures read { IfOk result (IsRead bytes.now) }
    ensures refused { IfErr result (IsReadFault bytes.now) }
{
    let program = read_program(alloc, bytes)?;
    Ok(check_root(alloc, program)?)
}
