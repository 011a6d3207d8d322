// A whole text.
ghost use Rattle.std.specs.Prelude.{IfOk, IfErr};
ghost use Rattle.lustre_syntax.specs.Lawful.{IsLawful};
ghost use Rattle.lustre_syntax.specs.Plain.{file_tree};
ghost use Rattle.lustre_rules.specs.Reading.{LustreText};
ghost use Rattle.lustre_reader.specs.Reading.{IsReadFault};

use lustre_checked::LusChecked;
use lustre_grammar::ReadLusFault;
use lustre_parser::parse_lustre;
use lustre_resolver::resolve_file;
use std::alloc::Global;

/// The one file of a text.
///
/// # Errors
///
/// `Refused` exactly where the text has no reading, with its first error: `Syntax` or `Deep` at the first token with which no
/// file goes on or that opens an expression more than 100 deep, else `Name` or `TypeRule` at the first construct that breaks a
/// static rule. `Memory` where memory ran out.
pub fn read_lustre(alloc: Global, bytes: &[u8]) -> Result<LusChecked, ReadLusFault>
    ensures read { IfOk result (λ checked. LustreText bytes.now (file_tree checked)) }
    ensures refused { IfErr result (IsReadFault bytes.now) }
{
    let written = parse_lustre(alloc, bytes)?;
    let file = resolve_file(alloc, &written)?;
    Ok(LusChecked::new(file))
}
