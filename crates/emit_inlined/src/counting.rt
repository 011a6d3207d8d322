// How often procedures are called.
ghost use Rattle.std.specs.Prelude.{◌≡◌, IfOk, flat_map, length, map, replicate, slice_index};
ghost use Rattle.std.specs.List.{slice_set};
ghost use Rattle.c_syntax.specs.Tree.{stmts_of_list};
ghost use Rattle.c_syntax.specs.Plain.{procedure_tree, stmt_tree};
ghost use Rattle.emit_inlined.specs.Inlined.{stmt_calls, stmts_calls};
ghost use Rattle.emit_inlined.specs.Steps.{counted, counts_of, one_more};

use base_core::Memory;
use c_syntax::{Procedure, Stmt};
use std::alloc::Global;

/// Counts a call, if there is such a procedure.
fn count_call(counts: &mut [u32], procedure: u32)
    ensures { counts.new
        ≡ slice_set counts.old procedure (one_more (slice_index counts.old procedure)) }
{
    let procedure = procedure as usize;
    if procedure < counts.len() {
        counts[procedure] = counts[procedure].saturating_add(1);
    }
}

/// Counts the calls in a statement.
#[cycle(statement)]
fn count_stmt(counts: &mut [u32], s: &Stmt)
    ensures { counts.new ≡ counted counts.old (stmt_calls (stmt_tree s.now)) }
{
    match s {
        Stmt::Set { .. } => {}
        Stmt::SetAt { .. } => {}
        Stmt::If { yes, no, .. } => {
            count_stmts(counts, yes);
            count_stmts(counts, no);
        }
        Stmt::Call { procedure, .. } => count_call(counts, *procedure),
    }
}

/// Counts the calls in statements.
#[cycle(statement)]
fn count_stmts(counts: &mut [u32], ss: &[Stmt])
    ensures { counts.new
        ≡ counted counts.old (stmts_calls (stmts_of_list (map stmt_tree ss.now))) }
{
    for s in ss {
        count_stmt(counts, s);
    }
}

/// Counts the calls in procedures.
fn count_procedures(counts: &mut [u32], procedures: &[Procedure])
    ensures { counts.new ≡ counted counts.old
        (flat_map (λ q. stmts_calls q.body) (map procedure_tree procedures.now)) }
{
    for q in procedures {
        count_stmts(counts, q.body.as_slice());
    }
}

/// By position how often each procedure is called, in time linear in the code.
pub(crate) fn call_counts(alloc: Global, procedures: &[Procedure]) -> Result<Vec<u32>, Memory>
    ensures { IfOk result (λ v. v.items ≡ counts_of (map procedure_tree procedures.now)) }
{
    let mut counts = vec![in alloc; 0; procedures.len()]?;
    count_procedures(&mut counts, procedures);
    Ok(counts)
}
