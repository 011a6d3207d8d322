ghost use Rattle.std.specs.Prelude.{◌≡◌, IfOk, map};
ghost use Rattle.c_syntax.specs.Plain.{procedure_tree, program_tree};
ghost use Rattle.emit_fused.specs.Fused as fused_trees;
ghost use Rattle.emit_fused.specs.Turned.{standing};

use crate::fusing::fused_stmts;
use crate::straight::{has_choice, simplified_stmts};
use crate::turning::turned_round;
use base_core::Memory;
use c_syntax::{Procedure, Program, Stmt};
use std::alloc::Global;

/// A body whose statements are fused.
#[tactic(auto, using(crate::proofs::StraightBodies::straight_fused))]
fn fused_body(alloc: Global, body: Vec<Stmt>) -> Result<Vec<Stmt>, Memory>
    ensures { IfOk result
        (λ v. standing v.items ≡ fused_trees.fused_stmts (standing body.items)) }
{
    if !has_choice(body.as_slice()) {
        return simplified_stmts(alloc, body);
    }
    let list = fused_stmts(alloc, body.as_slice())?;
    turned_round(alloc, list)
}

/// A procedure with a fused body.
fn fused_procedure(alloc: Global, q: Procedure) -> Result<Procedure, Memory>
    ensures { IfOk result (λ p. procedure_tree p ≡ fused_trees.fused_procedure (procedure_tree q)) }
{
    let Procedure {
        name,
        private,
        of,
        params,
        body,
    } = q;
    let body = fused_body(alloc, body)?;
    Ok(Procedure {
        name,
        private,
        of,
        params,
        body,
    })
}

/// Procedures with fused bodies.
fn fused_procedures(alloc: Global, procedures: Vec<Procedure>) -> Result<Vec<Procedure>, Memory>
    ensures { IfOk result (λ v. map procedure_tree v.items
        ≡ map fused_trees.fused_procedure (map procedure_tree procedures.items)) }
{
    let mut list = Vec::new(alloc);
    let mut rest = procedures.into_iter();
    while let Some(q) = rest.next() {
        list.push(fused_procedure(alloc, q)?)?;
    }
    Ok(list)
}

/// A program in which neighbouring `if`s of one test are one, and no factor or divisor is 1, in time linear in its code.
///
/// The pure functions and the structs are those of the program. Each body is built anew, and the one before it is let go.
/// Fails only when memory runs out.
pub fn fused(alloc: Global, program: Program) -> Result<Program, Memory>
    ensures { IfOk result (λ p. program_tree p ≡ fused_trees.fused (program_tree program)) }
{
    let Program {
        pure,
        structs,
        procedures,
    } = program;
    let procedures = fused_procedures(alloc, procedures)?;
    Ok(Program {
        pure,
        structs,
        procedures,
    })
}
