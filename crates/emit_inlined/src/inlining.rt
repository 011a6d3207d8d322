// Code with the bodies of helpers where they are called.
ghost use Rattle.std.specs.Prelude.{◌≡◌, IfOk, MatchOption, map, slice_index_or};
ghost use Rattle.c_syntax.specs.Tree.{more_stmts, no_stmts, stmts_of_list};
ghost use Rattle.c_syntax.specs.Plain.{procedure_tree, stmt_tree};
ghost use Rattle.emit_pruned.specs.Marks.{flag_at};
ghost use Rattle.emit_inlined.specs.Inlined as code;
ghost use Rattle.emit_inlined.specs.Inlined.{itself, no_procedure};
ghost use Rattle.emit_inlined.specs.Steps.{in_place_by, move_param, move_place, place_in, procedure_by, stmts_by};

use crate::finding::helper_call;
use crate::helpers::HelperCall;
use crate::moves::Moves;
use crate::params::Params;
use crate::places::Places;
use base_core::{Memory, Text};
use c_names::is_interface;
use c_renaming::{copied_stmt, copied_stmts, rename_body, rename_stmt};
use c_syntax::{Procedure, Stmt, copied_params};
use std::alloc::Global;

/// The body of the procedure at a position, and no statement past the end.
fn body_at(procedures: &[Procedure], position: u32) -> &[Stmt]
    ensures { stmts_of_list (map stmt_tree result.now)
        ≡ (slice_index_or (map procedure_tree procedures.now) position no_procedure).body }
{
    match procedures.get(position as usize) {
        Some(q) => q.body.as_slice(),
        None => &[],
    }
}

/// A copy of statements, with other parameters and places.
fn moved_stmts(alloc: Global, moves: &Moves<'_>, ss: &[Stmt]) -> Result<Vec<Stmt>, Memory>
    ensures { IfOk result (λ v. stmts_of_list (map stmt_tree v.items)
        ≡ code.moved_stmts (move_param moves.now) (move_place moves.now) (stmts_of_list (map stmt_tree ss.now))) }
{
    let mut list = copied_stmts(alloc, ss)?;
    rename_body(moves, &mut list);
    Ok(list)
}

/// Statements with their calls at new positions.
fn placed_stmts(alloc: Global, places: &Places, ss: &[Stmt]) -> Result<Vec<Stmt>, Memory>
    ensures { IfOk result (λ v. stmts_of_list (map stmt_tree v.items)
        ≡ code.moved_stmts itself (place_in places.now) (stmts_of_list (map stmt_tree ss.now))) }
{
    let params = Params::Itself;
    let moves = Moves {
        params: &params,
        places,
    };
    moved_stmts(alloc, &moves, ss)
}

/// A statement with its calls at new positions.
fn placed_stmt(alloc: Global, places: &Places, s: &Stmt) -> Result<Stmt, Memory>
    ensures { IfOk result
        (λ x. stmt_tree x ≡ code.moved_stmt itself (place_in places.now) (stmt_tree s.now)) }
{
    let params = Params::Itself;
    let moves = Moves {
        params: &params,
        places,
    };
    let mut placed = copied_stmt(alloc, s)?;
    rename_stmt(&moves, &mut placed);
    Ok(placed)
}

/// The body of a helper, which reads the parameters that are passed on.
fn placed_body(
    alloc: Global,
    procedures: &[Procedure],
    places: &Places,
    found: HelperCall,
) -> Result<Vec<Stmt>, Memory>
    ensures { IfOk result (λ v. stmts_of_list (map stmt_tree v.items)
        ≡ code.moved_stmts (λ i. slice_index_or found.params.items i 0) (place_in places.now)
        (slice_index_or (map procedure_tree procedures.now) found.procedure no_procedure).body) }
{
    let body = body_at(procedures, found.procedure);
    let params = Params::Passed(found.params);
    let moves = Moves {
        params: &params,
        places,
    };
    moved_stmts(alloc, &moves, body)
}

/// The body that goes where a statement is, if it calls a helper; else it stays itself.
fn called_body(
    alloc: Global,
    procedures: &[Procedure],
    helpers: &[bool],
    places: &Places,
    s: &Stmt,
) -> Result<Option<Vec<Stmt>>, Memory>
    ensures { IfOk result (λ o. MatchOption o
        (more_stmts (code.moved_stmt itself (place_in places.now) (stmt_tree s.now)) no_stmts
        ≡ in_place_by (map procedure_tree procedures.now) (flag_at helpers.now)
        (place_in places.now) (stmt_tree s.now))
        (λ v. stmts_of_list (map stmt_tree v.items)
        ≡ in_place_by (map procedure_tree procedures.now) (flag_at helpers.now)
        (place_in places.now) (stmt_tree s.now))) }
{
    match helper_call(alloc, helpers, s)? {
        Some(found) => {
            let body = placed_body(alloc, procedures, places, found)?;
            Ok(Some(body))
        }
        None => Ok(None),
    }
}

/// Statements with the bodies of helpers where they call them.
fn inlined_stmts(
    alloc: Global,
    procedures: &[Procedure],
    helpers: &[bool],
    places: &Places,
    ss: &[Stmt],
) -> Result<Vec<Stmt>, Memory>
    ensures { IfOk result (λ v. stmts_of_list (map stmt_tree v.items)
        ≡ stmts_by (map procedure_tree procedures.now) (flag_at helpers.now) (place_in places.now)
        (stmts_of_list (map stmt_tree ss.now))) }
{
    let mut list = Vec::with_capacity(alloc, ss.len())?;
    for s in ss {
        match called_body(alloc, procedures, helpers, places, s)? {
            Some(mut body) => list.append(&mut body)?,
            None => list.push(placed_stmt(alloc, places, s)?)?,
        }
    }
    Ok(list)
}

/// The body of a procedure in the new program.
fn inlined_body(
    alloc: Global,
    procedures: &[Procedure],
    helpers: &[bool],
    places: &Places,
    q: &Procedure,
) -> Result<Vec<Stmt>, Memory>
    ensures { IfOk result (λ v. stmts_of_list (map stmt_tree v.items)
        ≡ (procedure_by (map procedure_tree procedures.now) (flag_at helpers.now)
        (place_in places.now) (procedure_tree q.now)).body) }
{
    if is_interface(alloc, q.name.bytes())? {
        inlined_stmts(alloc, procedures, helpers, places, q.body.as_slice())
    } else {
        placed_stmts(alloc, places, q.body.as_slice())
    }
}

/// A procedure in the new program.
pub(crate) fn inlined_procedure(
    alloc: Global,
    procedures: &[Procedure],
    helpers: &[bool],
    places: &Places,
    q: &Procedure,
) -> Result<Procedure, Memory>
    ensures { IfOk result (λ p. procedure_tree p
        ≡ procedure_by (map procedure_tree procedures.now) (flag_at helpers.now)
        (place_in places.now) (procedure_tree q.now)) }
{
    Ok(Procedure {
        name: Text::copy_of(alloc, q.name.bytes())?,
        private: q.private,
        of: q.of,
        params: copied_params(alloc, q.params.as_slice())?,
        body: inlined_body(alloc, procedures, helpers, places, q)?,
    })
}
