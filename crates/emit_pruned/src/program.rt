ghost use Rattle.std.specs.Prelude.{◌≡◌, IfOk, length, map};
ghost use Rattle.c_syntax.specs.Plain.{program_tree, pure_tree};
ghost use Rattle.emit_pruned.specs.Marks.{flag_at};
ghost use Rattle.emit_pruned.specs.Pruned.{kept_from};
ghost use Rattle.emit_pruned.specs.Pruned as pruned_trees;

use crate::marks::needed;
use crate::places::Places;
use crate::placing::places_of;
use base_core::Memory;
use c_renaming::{rename_procedures, rename_pures};
use c_syntax::{Program, Pure};
use std::alloc::Global;

/// The pure functions that are needed.
fn kept_pures(alloc: Global, needed: &[bool], pures: Vec<Pure>) -> Result<Vec<Pure>, Memory>
    requires { length needed.now ≡ length pures.items }
    ensures { IfOk result (λ v. map pure_tree v.items
        ≡ kept_from (flag_at needed.now) 0 (map pure_tree pures.items)) }
{
    let mut list = Vec::new(alloc);
    let mut rest = pures.into_iter();
    let mut position = 0;
    while let Some(f) = rest.next() {
        if needed[position] {
            list.push(f)?;
        }
        position += 1;
    }
    Ok(list)
}

/// A program without the pure functions that it doesn't need, in time linear in its code.
///
/// Calls are renumbered in place: nothing is copied. Fails only when memory runs out, or where a position would pass 32 bits.
pub fn pruned(alloc: Global, program: Program) -> Result<Program, Memory>
    ensures { IfOk result (λ p. program_tree p ≡ pruned_trees.pruned (program_tree program)) }
{
    let Program {
        pure,
        structs,
        mut procedures,
    } = program;
    let needed = needed(alloc, pure.as_slice(), procedures.as_slice())?;
    let places = places_of(alloc, needed.as_slice())?;
    let mut pure = kept_pures(alloc, needed.as_slice(), pure)?;
    rename_pures(&places, &mut pure);
    rename_procedures(&places, &mut procedures);
    Ok(Program {
        pure,
        structs,
        procedures,
    })
}
