ghost use Rattle.std.specs.Prelude.{◌≡◌, ◌<◌, ◌^◌, IfOk, map, unsigned_abs};
ghost use Rattle.std.specs.Option.{option_map};
ghost use Rattle.c_syntax.specs.Tree.{branch, read, stmts_of_list};
ghost use Rattle.c_syntax.specs.Plain.{expr_tree, cond_tree, stmt_tree};
ghost use Rattle.emit_row_code.specs.StatementCode as code;
ghost use Rattle.emit_row_code.specs.RowCode.{written};

use crate::activity::level_code;
use crate::exact::reads;
use crate::expression::written;
use crate::leaves::RingFields;
use crate::rings::{emptied, taken_in};
use base_core::Memory;
use c_syntax::{Cond, Expr, Leaf, Stmt, Target};
use std::alloc::Global;

/// One statement.
fn one(alloc: Global, statement: Stmt) -> Result<Vec<Stmt>, Memory>
    ensures { IfOk result (λ v. stmts_of_list (map stmt_tree v.items)
        ≡ code.one (stmt_tree statement)) }
{
    let mut statements = Vec::new(alloc);
    statements.push(statement)?;
    Ok(statements)
}

/// The statements that run where a test holds, and those where it doesn't.
fn either_way(test: Cond, yes: Vec<Stmt>, no: Vec<Stmt>) -> Stmt
    ensures { stmt_tree result ≡ branch 0 (cond_tree test)
        (stmts_of_list (map stmt_tree yes.items)) (stmts_of_list (map stmt_tree no.items)) }
{
    Stmt::If {
        line: 0,
        test,
        yes,
        no,
    }
}

/// Statements that run where a test holds, and others where it doesn't; `None` always holds.
fn guarded(
    alloc: Global,
    test: Option<Cond>,
    yes: Vec<Stmt>,
    no: Vec<Stmt>,
) -> Result<Vec<Stmt>, Memory>
    ensures { IfOk result (λ v. stmts_of_list (map stmt_tree v.items)
        ≡ code.guarded (option_map cond_tree test)
        (stmts_of_list (map stmt_tree yes.items)) (stmts_of_list (map stmt_tree no.items))) }
{
    match test {
        None => Ok(yes),
        Some(test) => one(alloc, either_way(test, yes, no)),
    }
}

/// Statements that run where a test holds alone; `None` never holds.
fn only_if(alloc: Global, test: Option<Cond>, yes: Vec<Stmt>) -> Result<Vec<Stmt>, Memory>
    ensures { IfOk result (λ v. stmts_of_list (map stmt_tree v.items)
        ≡ code.only_if (option_map cond_tree test) (stmts_of_list (map stmt_tree yes.items))) }
{
    match test {
        None => Ok(Vec::new(alloc)),
        Some(test) => one(alloc, either_way(test, yes, Vec::new(alloc))),
    }
}

/// A number is stored in the own field at a position.
fn store(alloc: Global, field: u32, value: Expr) -> Result<Vec<Stmt>, Memory>
    ensures { IfOk result
        (λ v. stmts_of_list (map stmt_tree v.items) ≡ code.store_code field (expr_tree value)) }
{
    let set = Stmt::Set {
        line: 0,
        field,
        value,
    };
    one(alloc, set)
}

/// The statements for a row's value: where the row runs, it is stored in the own field at a position. `runs` is the test
/// that the system is active and the tick is one of the row's, in one; `None` always holds.
///
/// Fails only when memory runs out.
pub fn value_statements(
    alloc: Global,
    field: u32,
    runs: Option<Cond>,
    value: Expr,
) -> Result<Vec<Stmt>, Memory>
    ensures { IfOk result (λ v. stmts_of_list (map stmt_tree v.items)
        ≡ code.value_statements field (option_map cond_tree runs) (expr_tree value)) }
{
    let stored = store(alloc, field, value)?;
    guarded(alloc, runs, stored, Vec::new(alloc))
}

/// The statements that give an output its start where the enable of its system is low; they are before those for its
/// value. `None` never holds.
///
/// Fails only when memory runs out.
pub fn value_reset_statements(
    alloc: Global,
    field: u32,
    disabled: Option<Cond>,
    start: i64,
) -> Result<Vec<Stmt>, Memory>
    requires { unsigned_abs start < 2 ^ 63 }
    ensures { IfOk result (λ v. stmts_of_list (map stmt_tree v.items)
        ≡ code.value_reset_statements field (option_map cond_tree disabled) start) }
{
    let started = store(alloc, field, written(alloc, start)?)?;
    only_if(alloc, disabled, started)
}

/// The own field at a position takes what a leaf reads, or a number.
fn memory_stores(
    alloc: Global,
    field: u32,
    input: Leaf,
    start: i64,
) -> Result<(Vec<Stmt>, Vec<Stmt>), Memory>
    requires { unsigned_abs start < 2 ^ 63 }
    ensures taken { IfOk result (λ r. stmts_of_list (map stmt_tree r.0.items)
        ≡ code.store_code field (read input)) }
    ensures started { IfOk result (λ r. stmts_of_list (map stmt_tree r.1.items)
        ≡ code.store_code field (written start)) }
{
    let taken = store(alloc, field, Expr::Read(input))?;
    let started = store(alloc, field, written(alloc, start)?)?;
    Ok((taken, started))
}

/// What a delay does at a tick: it takes what its input reads where the row runs, and else it begins anew where the system
/// is off. `runs` always holds where it is `None`, and `off` never.
#[derive(Drop)]
pub struct DelayStep {
    /// The test that the row runs.
    pub runs: Option<Cond>,
    /// Where its input is read.
    pub input: Leaf,
    /// The test that the system is off.
    pub off: Option<Cond>,
}

impl DelayStep {
    /// Statements that take the input, or that begin anew, each where it's done.
    fn chosen(self, alloc: Global, taken: Vec<Stmt>, begun: Vec<Stmt>) -> Result<Vec<Stmt>, Memory>
        ensures { IfOk result (λ v. stmts_of_list (map stmt_tree v.items)
            ≡ code.guarded (option_map cond_tree self.runs)
            (stmts_of_list (map stmt_tree taken.items))
            (code.only_if (option_map cond_tree self.off)
            (stmts_of_list (map stmt_tree begun.items)))) }
    {
        let begun = only_if(alloc, self.off, begun)?;
        guarded(alloc, self.runs, taken, begun)
    }

    /// The statements for the memory of a delay of one sample, in the own field at a position, with its start.
    ///
    /// Fails only when memory runs out.
    pub fn memory_statements(
        self,
        alloc: Global,
        field: u32,
        start: i64,
    ) -> Result<Vec<Stmt>, Memory>
        requires { unsigned_abs start < 2 ^ 63 }
        ensures { IfOk result (λ v. stmts_of_list (map stmt_tree v.items)
            ≡ code.memory_statements field (option_map cond_tree self.runs) self.input
            (option_map cond_tree self.off) start) }
    {
        let (taken, started) = memory_stores(alloc, field, self.input, start)?;
        self.chosen(alloc, taken, started)
    }

    /// The statements for the memory of a delay of `length` samples: it takes the input in place of its oldest sample, and
    /// it is emptied.
    ///
    /// Fails only when memory runs out.
    pub fn ring_statements(
        self,
        alloc: Global,
        ring: RingFields,
        length: u32,
    ) -> Result<Vec<Stmt>, Memory>
        ensures { IfOk result (λ v. stmts_of_list (map stmt_tree v.items)
            ≡ code.ring_statements ring length (option_map cond_tree self.runs) self.input
            (option_map cond_tree self.off)) }
    {
        let taken = taken_in(alloc, ring, length, self.input)?;
        let emptied = emptied(alloc, ring)?;
        self.chosen(alloc, taken, emptied)
    }
}

/// The statements for what a trigger remembers. They are in the update, which is called only where the system around is
/// active, after all that tests the activity.
///
/// Fails only when memory runs out.
pub fn trigger_statements(alloc: Global, field: u32, trigger: Leaf) -> Result<Vec<Stmt>, Memory>
    ensures { IfOk result
        (λ v. stmts_of_list (map stmt_tree v.items) ≡ code.trigger_statements field trigger) }
{
    store(alloc, field, level_code(alloc, trigger)?)
}

/// A call of the procedure at a position in the program, on the child in the own field at another.
fn child_call(
    alloc: Global,
    procedure: u32,
    field: u32,
    leaves: &[Leaf],
) -> Result<Vec<Stmt>, Memory>
    ensures { IfOk result
        (λ v. stmts_of_list (map stmt_tree v.items) ≡ code.child_call procedure field leaves.now) }
{
    let call = Stmt::Call {
        line: 0,
        procedure,
        target: Target::Child(field),
        values: reads(alloc, leaves)?,
    };
    one(alloc, call)
}

/// The statements for the call of a child's output function or of its update: it is made where the system is active. The
/// child is in the own field at a position, and its procedure at one in the program; an argument is what its leaf reads.
/// `None` always holds.
///
/// Fails only when memory runs out.
pub fn call_statements(
    alloc: Global,
    active: Option<Cond>,
    procedure: u32,
    field: u32,
    leaves: &[Leaf],
) -> Result<Vec<Stmt>, Memory>
    ensures { IfOk result (λ v. stmts_of_list (map stmt_tree v.items)
        ≡ code.call_statements (option_map cond_tree active) procedure field leaves.now) }
{
    let call = child_call(alloc, procedure, field, leaves)?;
    guarded(alloc, active, call, Vec::new(alloc))
}

/// The statements that reset a child where the system is off; `None` never holds.
///
/// Fails only when memory runs out.
pub fn reset_call_statements(
    alloc: Global,
    off: Option<Cond>,
    procedure: u32,
    field: u32,
) -> Result<Vec<Stmt>, Memory>
    ensures { IfOk result (λ v. stmts_of_list (map stmt_tree v.items)
        ≡ code.reset_call_statements (option_map cond_tree off) procedure field) }
{
    let call = child_call(alloc, procedure, field, &[])?;
    only_if(alloc, off, call)
}
