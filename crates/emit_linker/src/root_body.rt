// The statements of the root's two procedures.
ghost use Rattle.std.specs.Prelude.{◌≡◌, ◌+◌, ◌<◌, ◌^◌, ◌++◌, ◌∷◌, [], IfOk, OnOk, map, pos, codes as text};
ghost use Rattle.std.specs.List.{enumerate_from};
ghost use Rattle.c_syntax.specs.declared.code.BinOp.TheVariants.{Add, Rem};
ghost use Rattle.c_syntax.specs.declared.code.Leaf.TheVariants.{Own as own_leaf, Child as child_leaf};
ghost use Rattle.c_syntax.specs.Tree.{assign, binary, literal, read};
ghost use Rattle.c_syntax.specs.Plain.{expr_tree, stmt_tree, param_trees};
ghost use Rattle.emit_shape.specs.SystemTree.{system_tree};
ghost use Rattle.emit_shape.specs.Assembled as assembled;
ghost use Rattle.emit_linker.specs.Places.{trees};

use crate::calls::{call_top, calls_of_top};
use crate::codes::Codes;
use crate::lists::small;
use crate::names::with_end;
use crate::parts::{outputs_of, system_name};
use crate::public::out_names;
use base_core::{Memory, Text};
use c_syntax::{BinOp, CType, Expr, Leaf, Stmt};
use emit_shape::SystemCode;
use std::alloc::Global;

/// A store.
fn store(field: u32, value: Expr) -> Stmt
    ensures { stmt_tree result ≡ assign 0 field (expr_tree value) }
{
    Stmt::Set {
        line: 0,
        field,
        value,
    }
}

/// The call that starts the topmost system, where the root has so many outputs.
fn start_call(alloc: Global, codes: &Codes<'_>, count: u32) -> Result<Stmt, Memory>
    requires { count + 1 < 2 ^ 32 }
    ensures { IfOk result (λ s. stmt_tree s
        ≡ assembled.call_top (trees codes.now.list.now) [] count
        ((assembled.code_at (trees codes.now.list.now) 0).structure.name ++ text "_start")) }
{
    let name = with_end(alloc, system_name(codes.at(0)), "_start")?;
    call_top(alloc, codes, &[], count, name.bytes())
}

/// What starts the topmost system, copies its outputs and starts the tick, where the root has so
/// many outputs.
pub(crate) fn start_body(alloc: Global, codes: &Codes<'_>, count: u32) -> Result<Vec<Stmt>, Memory>
    requires { count + 1 < 2 ^ 32 }
    ensures { IfOk result (λ v. map stmt_tree v.items
        ≡ assembled.call_top (trees codes.now.list.now) [] count
        ((assembled.code_at (trees codes.now.list.now) 0).structure.name ++ text "_start")
        ∷ assembled.output_copies (trees codes.now.list.now) count
        ++ assign 0 0 (literal (pos 0)) ∷ []) }
{
    let mut list = Vec::new(alloc);
    list.push(start_call(alloc, codes, count)?)?;
    push_outputs(count, outputs_of(codes.at(0)), &mut list)?;
    list.push(store(0, Expr::Literal(0)))?;
    Ok(list)
}

/// The names of the procedures that are called in a step.
fn step_names(alloc: Global, code: &SystemCode) -> Result<Vec<Text>, Memory>
    ensures { IfOk result (λ v. v.items ≡ assembled.out_names (system_tree code.now)
        ++ ((system_tree code.now).structure.name ++ text "_update") ∷ []) }
{
    let mut names = out_names(alloc, code)?;
    names.push(with_end(alloc, system_name(code), "_update")?)?;
    Ok(names)
}

/// A store of an output of the topmost system, where the root has so many outputs.
fn store_output(place: usize, count: u32, field: u32) -> Result<Stmt, Memory>
    requires { count + 1 < 2 ^ 32 }
    ensures { IfOk result (λ s. stmt_tree s
        ≡ assign 0 (place + 1) (read (child_leaf (count + 1) field))) }
{
    match place.checked_add(1) {
        Some(own) => Ok(store(small(own)?, Expr::Read(Leaf::Child(count + 1, field)))),
        None => Err(Memory),
    }
}

/// Adds a store of each output of the topmost system.
fn push_outputs(count: u32, fields: &[u32], list: &mut Vec<Stmt>) -> Result<(), Memory>
    requires { count + 1 < 2 ^ 32 }
    ensures { OnOk result (map stmt_tree list.new.items ≡ map stmt_tree list.old.items
        ++ map (λ e. assign 0 (e.0 + 1) (read (child_leaf (count + 1) e.1)))
        (enumerate_from 0 fields.now)) }
{
    for (place, field) in fields.iter().enumerate() {
        list.push(store_output(place, count, *field)?)?;
    }
    Ok(())
}

/// The tick and one more, in a box.
fn tick_and_one(alloc: Global) -> Result<Box<Expr>, Memory>
    ensures { IfOk result (λ e. expr_tree e.value
        ≡ binary Add (read (own_leaf 0)) (literal (pos 1))) }
{
    let tick = Box::new(alloc, Expr::Read(Leaf::Own(0)))?;
    let one = Box::new(alloc, Expr::Literal(1))?;
    Ok(Box::new(alloc, Expr::Binary(BinOp::Add, tick, one))?)
}

/// The store of the next tick, which begins anew after so many.
fn next_tick(alloc: Global, hyper: u32) -> Result<Stmt, Memory>
    ensures { IfOk result (λ s. stmt_tree s
        ≡ assign 0 0 (binary Rem (binary Add (read (own_leaf 0)) (literal (pos 1)))
        (literal (pos hyper)))) }
{
    let next = tick_and_one(alloc)?;
    let round = Box::new(alloc, Expr::Literal(i64::from(hyper)))?;
    Ok(store(0, Expr::Binary(BinOp::Rem, next, round)))
}

/// What a step does, where the root has so many outputs.
pub(crate) fn step_body(
    alloc: Global,
    codes: &Codes<'_>,
    params: &[(Text, CType)],
    count: u32,
    hyper: u32,
) -> Result<Vec<Stmt>, Memory>
    requires { count + 1 < 2 ^ 32 }
    ensures { let top = assembled.code_at (trees codes.now.list.now) 0 in
        IfOk result (λ v. map stmt_tree v.items
        ≡ map (assembled.call_top (trees codes.now.list.now) (param_trees params.now) count)
        (assembled.out_names top ++ (top.structure.name ++ text "_update") ∷ [])
        ++ assembled.output_copies (trees codes.now.list.now) count
        ++ assign 0 0 (binary Rem (binary Add (read (own_leaf 0)) (literal (pos 1)))
        (literal (pos hyper))) ∷ []) }
{
    let top = codes.at(0);
    let names = step_names(alloc, top)?;
    let mut list = calls_of_top(alloc, codes, params, count, &names)?;
    push_outputs(count, outputs_of(top), &mut list)?;
    list.push(next_tick(alloc, hyper)?)?;
    Ok(list)
}
