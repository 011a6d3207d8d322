ghost use Rattle.std.specs.Prelude.{◌≡◌, IfOk, length, map};
ghost use Rattle.c_syntax.specs.Lawful.{IsLawful};
ghost use Rattle.c_syntax.specs.Plain.{procedure_tree, program_tree};
ghost use Rattle.emit_pruned.specs.Marks.{flag_at};
ghost use Rattle.emit_inlined.specs.Inlined as inlined_trees;
ghost use Rattle.emit_inlined.specs.Steps.{is_kept, place_in, procedure_by};

use crate::counting::call_counts;
use crate::finding::{helpers, inlined_helpers};
use crate::inlining::inlined_procedure;
use crate::places::Places;
use crate::placing::places_of;
use base_core::Memory;
use c_syntax::{Procedure, Program};
use std::alloc::Global;

/// The procedures that stay, with the bodies of helpers where they call them.
fn staying_procedures(
    alloc: Global,
    procedures: &[Procedure],
    helpers: &[bool],
    inlined: &[bool],
    places: &Places,
) -> Result<Vec<Procedure>, Memory>
    requires { length inlined.now ≡ length procedures.now }
    ensures { IfOk result (λ v. map procedure_tree v.items
        ≡ map (procedure_by (map procedure_tree procedures.now) (flag_at helpers.now)
        (place_in places.now))
        (inlined_trees.kept_from (is_kept inlined.now) 0 (map procedure_tree procedures.now))) }
{
    let mut list = Vec::new(alloc);
    for (position, q) in procedures.iter().enumerate() {
        if !inlined[position] {
            list.push(inlined_procedure(alloc, procedures, helpers, places, q)?)?;
        }
    }
    Ok(list)
}

/// A program in which the body of each helper is where the helper was called, in time linear in its code.
///
/// The functions and structs are those of the program; its procedures are built anew, so for a while there are two of each.
/// Fails where memory runs out, or a position would pass 32 bits.
pub fn inlined(alloc: Global, program: Program) -> Result<Program, Memory>
    requires { IsLawful (program_tree program) }
    ensures { IfOk result (λ p. program_tree p ≡ inlined_trees.inlined (program_tree program)) }
{
    let Program {
        pure,
        structs,
        procedures,
    } = program;
    let counts = call_counts(alloc, procedures.as_slice())?;
    let helpers = helpers(alloc, procedures.as_slice(), counts.as_slice())?;
    let inlined = inlined_helpers(alloc, helpers.as_slice(), procedures.as_slice())?;
    let places = places_of(alloc, inlined.as_slice())?;
    Ok(Program {
        pure,
        structs,
        procedures: staying_procedures(
            alloc,
            procedures.as_slice(),
            helpers.as_slice(),
            inlined.as_slice(),
            &places,
        )?,
    })
}
