// The procedures of codes at their places.
ghost use Rattle.std.specs.Prelude.{◌≡◌, ◌++◌, IfOk, OnOk, map};
ghost use Rattle.c_syntax.specs.Plain.{procedure_tree};
ghost use Rattle.emit_shape.specs.Assembled as assembled;
ghost use Rattle.emit_shape.specs.Relocation as moved;
ghost use Rattle.emit_linker.specs.Linked.{relocation};
ghost use Rattle.emit_linker.specs.Places.{trees};

use crate::codes::Codes;
use crate::linking::links_of;
use crate::links::Links;
use crate::parts::procedures_of;
use crate::stmts::moved_stmts;
use base_core::{Memory, Text};
use c_syntax::{Procedure, copied_params};
use std::alloc::Global;

/// A procedure at its place.
fn moved_procedure(alloc: Global, links: &Links<'_>, q: &Procedure) -> Result<Procedure, Memory>
    ensures { IfOk result (λ p. procedure_tree p
        ≡ moved.moved_procedure (relocation links.now) (procedure_tree q.now)) }
{
    let params = copied_params(alloc, q.params.as_slice())?;
    let body = moved_stmts(alloc, links, q.body.as_slice())?;
    Ok(Procedure {
        name: Text::copy_of(alloc, q.name.bytes())?,
        private: q.private,
        of: links.of,
        params,
        body,
    })
}

/// Adds procedures at their places.
fn push_moved(
    alloc: Global,
    links: &Links<'_>,
    procedures: &[Procedure],
    list: &mut Vec<Procedure>,
) -> Result<(), Memory>
    ensures { OnOk result (map procedure_tree list.new.items ≡ map procedure_tree list.old.items
        ++ map (moved.moved_procedure (relocation links.now)) (map procedure_tree procedures.now)) }
{
    for q in procedures {
        list.push(moved_procedure(alloc, links, q)?)?;
    }
    Ok(())
}

/// Adds the procedures of the code at a position.
pub(crate) fn push_procedures(
    alloc: Global,
    codes: &Codes<'_>,
    i: u32,
    list: &mut Vec<Procedure>,
) -> Result<(), Memory>
    ensures { OnOk result (map procedure_tree list.new.items ≡ map procedure_tree list.old.items
        ++ map (moved.moved_procedure (assembled.relocation_of (trees codes.now.list.now) i))
        (assembled.code_at (trees codes.now.list.now) i).procedures) }
{
    let links = links_of(alloc, codes, i)?;
    push_moved(alloc, &links, procedures_of(codes.at(i)), list)
}
