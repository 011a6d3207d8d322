// The public procedures of a code.
ghost use Rattle.std.specs.Prelude.{◌≡◌, ◌++◌, IfOk, OnOk, map, bytes_eq};
ghost use Rattle.std.specs.List.{position_from};
ghost use Rattle.c_syntax.specs.Plain.{procedure_tree};
ghost use Rattle.emit_shape.specs.SystemTree.{system_tree};
ghost use Rattle.emit_shape.specs.Assembled as assembled;
ghost use Rattle.emit_linker.specs.Places.{trees};

use crate::codes::Codes;
use crate::lists::{is_named, small, sum};
use crate::names::{out_name, with_end};
use crate::parts::{procedures_of, system_name};
use base_core::{Memory, Text};
use c_syntax::Procedure;
use emit_shape::SystemCode;
use std::alloc::Global;

/// The place of the first procedure of a name.
fn place_among(procedures: &[Procedure], name: &[u8]) -> Option<usize>
    ensures { result ≡ position_from (λ q. bytes_eq q.name name.now) 0 procedures.now }
{
    procedures.iter().position(|q| is_named(&q.name, name))
}

/// The same, where procedures are seen as their trees.
fn place_of(procedures: &[Procedure], name: &[u8]) -> Option<usize>
    ensures { result
        ≡ position_from (λ q. bytes_eq q.name name.now) 0 (map procedure_tree procedures.now) }
{
    place_among(procedures, name)
}

/// Whether a procedure of a code has a name.
fn has_procedure(code: &SystemCode, name: &[u8]) -> bool
    ensures { result ≡ assembled.has_procedure (system_tree code.now) name.now }
{
    place_of(procedures_of(code), name).is_some()
}

/// The names of the output functions of a code.
pub(crate) fn out_names(alloc: Global, code: &SystemCode) -> Result<Vec<Text>, Memory>
    ensures { IfOk result (λ v. v.items ≡ assembled.out_names (system_tree code.now)) }
{
    let system = system_name(code);
    let mut names = Vec::new(alloc);
    for before in 0..procedures_of(code).len() {
        let name = out_name(alloc, system, before as u64 + 1)?;
        if !has_procedure(code, name.bytes()) {
            return Ok(names);
        }
        names.push(name)?;
    }
    Ok(names)
}

/// The names of the public procedures of a code.
fn public_names(alloc: Global, code: &SystemCode) -> Result<Vec<Text>, Memory>
    ensures { IfOk result (λ v. v.items ≡ assembled.public_names (system_tree code.now)) }
{
    let system = system_name(code);
    let mut names = out_names(alloc, code)?;
    names.push(with_end(alloc, system, "_update")?)?;
    names.push(with_end(alloc, system, "_start")?)?;
    names.push(with_end(alloc, system, "_reset")?)?;
    Ok(names)
}

/// The position of the procedure of a code with a name.
pub(crate) fn procedure_position(codes: &Codes<'_>, i: u32, name: &[u8]) -> Result<u32, Memory>
    ensures { IfOk result (λ k. k ≡ assembled.procedure_position (trees codes.now.list.now) i name.now) }
{
    let place = place_of(procedures_of(codes.at(i)), name).unwrap_or(0);
    let first = codes.first_procedure(i);
    sum(first, small(place)?)
}

/// Adds the positions of the public procedures of a code.
pub(crate) fn push_positions(
    alloc: Global,
    codes: &Codes<'_>,
    i: u32,
    positions: &mut Vec<u32>,
) -> Result<(), Memory>
    ensures { OnOk result (positions.new.items ≡ positions.old.items
        ++ assembled.public_positions (trees codes.now.list.now) i) }
{
    let names = public_names(alloc, codes.at(i))?;
    for name in &names {
        positions.push(procedure_position(codes, i, name.bytes())?)?;
    }
    Ok(())
}
