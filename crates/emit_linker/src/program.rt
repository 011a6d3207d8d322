ghost use Rattle.std.specs.Prelude.{◌≡◌, ◌++◌, ◌∷◌, [], List, IfOk, flat_map, map};
ghost use Rattle.c_syntax.specs.Tree.{PureTree};
ghost use Rattle.c_syntax.specs.Plain.{procedure_tree, program_tree};
ghost use Rattle.emit_shape.specs.Relocation.{moved_procedure};
ghost use Rattle.emit_shape.specs.SystemTree.{system_tree};
ghost use Rattle.emit_shape.specs.Assembled as assembled;
ghost use Rattle.emit_prelude.specs.Bodies.{function_trees};
ghost use Rattle.emit_prelude.specs.Rules.{IsPrelude};
ghost use Rattle.emit_linker.specs.Places.{IsNoCode, trees};

use crate::codes::Codes;
use crate::procedures::push_procedures;
use crate::root_code::push_root_procedures;
use crate::root_struct::root_structure;
use crate::structs::moved_struct;
use base_core::{Memory, Text};
use c_syntax::{Procedure, Program, StructDef};
use emit_prelude::prelude;
use emit_shape::SystemCode;
use modules_profile::Local;
use std::alloc::Global;

/// A code of nothing.
fn no_code(alloc: Global) -> SystemCode
    ensures { IsNoCode result }
{
    SystemCode {
        structure: StructDef {
            name: Text::new(Vec::new(alloc)),
            fields: Vec::new(alloc),
        },
        outputs: Vec::new(alloc),
        procedures: Vec::new(alloc),
    }
}

/// The structs from the last code to the first, and the root's.
fn all_structs(alloc: Global, codes: &Codes<'_>, root: &Local) -> Result<Vec<StructDef>, Memory>
    ensures { IfOk result (λ v. v.items
        ≡ map (λ i. assembled.moved_struct (trees codes.now.list.now)
        (assembled.code_at (trees codes.now.list.now) i))
        (assembled.from_last (trees codes.now.list.now))
        ++ assembled.root_structure (trees codes.now.list.now) root.now 0 ∷ []) }
{
    let mut structs = Vec::new(alloc);
    for i in (0..codes.count()).rev() {
        structs.push(moved_struct(alloc, codes, codes.at(i))?)?;
    }
    structs.push(root_structure(alloc, codes, root)?)?;
    Ok(structs)
}

/// The procedures from the last code to the first, and the root's.
fn all_procedures(
    alloc: Global,
    codes: &Codes<'_>,
    root: &Local,
    hyper: u32,
) -> Result<Vec<Procedure>, Memory>
    ensures { IfOk result (λ v. map procedure_tree v.items
        ≡ flat_map
        (λ i. map (moved_procedure (assembled.relocation_of (trees codes.now.list.now) i))
        (assembled.code_at (trees codes.now.list.now) i).procedures)
        (assembled.from_last (trees codes.now.list.now))
        ++ assembled.root_procedures (trees codes.now.list.now) root.now hyper) }
{
    let mut procedures = Vec::new(alloc);
    for i in (0..codes.count()).rev() {
        push_procedures(alloc, codes, i, &mut procedures)?;
    }
    push_root_procedures(alloc, codes, root, hyper, &mut procedures)?;
    Ok(procedures)
}

/// The program that codes come to, with the root by its own rows and so many ticks in a round.
fn program_of(alloc: Global, codes: &Codes<'_>, root: &Local, hyper: u32) -> Result<Program, Memory>
    ensures { IfOk result (λ p. (pures : List PureTree) × IsPrelude pures × (pures ≡ function_trees)
        × (program_tree p
        ≡ assembled.assembled (trees codes.now.list.now) root.now hyper pures)) }
{
    let structs = all_structs(alloc, codes, root)?;
    let procedures = all_procedures(alloc, codes, root, hyper)?;
    Ok(Program {
        pure: prelude(alloc)?,
        structs,
        procedures,
    })
}

/// The program that the codes of all systems come to, the topmost first: the pure functions, the structs and procedures
/// from the last code to the first, and those of the root by its own rows. So many ticks are one round.
///
/// It takes time linear in the text of all codes, times the names of a system's public procedures, of which there are at
/// most 35. Fails only when memory runs out, or where a position would pass 32 bits.
pub fn assemble(
    alloc: Global,
    codes: &[SystemCode],
    root: &Local,
    hyper: u32,
) -> Result<Program, Memory>
    ensures { IfOk result (λ p. (pures : List PureTree) × IsPrelude pures × (pures ≡ function_trees)
        × (program_tree p ≡ assembled.assembled (map system_tree codes.now) root.now hyper pures)) }
{
    let none = no_code(alloc);
    let codes = Codes::new(alloc, codes, &none)?;
    program_of(alloc, &codes, root, hyper)
}
