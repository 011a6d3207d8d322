ghost use Rattle.std.specs.Prelude.{◌≡◌, ◌<◌, ◌≤◌, ◌^◌, ◌++◌, All, IfOk, OnOk, length, map};
ghost use Rattle.std.specs.List.{enumerate_from, range_with_len};
ghost use Rattle.modules_profile.specs.Locals.{own_header};
ghost use Rattle.c_syntax.specs.Tree.{stmts_of_list};
ghost use Rattle.c_syntax.specs.Plain.{param_trees, procedure_tree};
ghost use Rattle.emit_shape.specs.Heads as heads;
ghost use Rattle.emit_system_spec.specs.EmittedCode as emitted;
ghost use Rattle.emit_system_spec.specs.Emittable.{IsEmittable};
ghost use Rattle.emit_system_spec.specs.Groups.{own_count};
ghost use Rattle.emit_system_spec.specs.Renewing as renewing;
ghost use Rattle.emit_nodes.specs.Code.{code_of};
ghost use Rattle.emit_system.specs.Agreeing.{AgreeOnFunctions};

use crate::update::update_body;
use base_core::{Memory, Text};
use c_syntax::{CType, Procedure, Stmt};
use emit_layout::{Layout, Params};
use emit_nodes::{counted, nodes_code, own_calls};
use emit_row_facts::{group_name, out_name, reset_name, start_name, update_name};
use emit_signatures::{group_params, out_params, update_params};
use emit_starts::{reset_body, start_body};
use modules_schedule::NodeList;
use std::alloc::Global;

/// A procedure of the system's own struct.
fn procedure(name: Text, private: bool, params: Vec<(Text, CType)>, body: Vec<Stmt>) -> Procedure
    ensures { procedure_tree result ≡ emitted.with_body
        (record { name = name; private = private; params = param_trees params.items })
        (code_of body.items) }
{
    Procedure {
        name,
        private,
        of: 0,
        params,
        body,
    }
}

/// The procedure of a group with these parameters.
///
/// Fails only when memory runs out.
fn group_procedure(
    alloc: Global,
    layout: &Layout<'_>,
    params: &Params,
    group: u32,
) -> Result<Procedure, Memory>
    requires emittable { IsEmittable layout.now.local layout.now.schedule }
    requires group { group < length layout.now.schedule.groups }
    requires params { params.now
        ≡ emitted.group_params layout.now.local layout.now.profile layout.now.schedule group }
    ensures { IfOk result (λ p. procedure_tree p
        ≡ emitted.group_procedure layout.now.local layout.now.profile layout.now.schedule group) }
{
    let code = nodes_code(alloc, layout, params, layout.group_nodes(group))?;
    let body = counted(alloc, layout.counter_field(group), code)?;
    let name = group_name(alloc, layout.local().row, u64::from(group) + 1)?;
    Ok(procedure(name, true, params.named(alloc)?, body))
}

/// The procedure that updates the system.
///
/// Fails only when memory runs out.
fn update_procedure(alloc: Global, layout: &Layout<'_>) -> Result<Procedure, Memory>
    requires { IsEmittable layout.now.local layout.now.schedule }
    ensures { let head = heads.update_head (own_header layout.now.local layout.now.profile) in
        IfOk result (λ p. procedure_tree p ≡ emitted.with_body head
        (emitted.update_body layout.now.local layout.now.profile layout.now.schedule head.params)) }
{
    let params = update_params(alloc, layout)?;
    let body = update_body(alloc, layout, &params)?;
    let name = update_name(alloc, layout.local().row)?;
    Ok(procedure(name, false, params.named(alloc)?, body))
}

/// The procedure that starts the system.
///
/// Fails only when memory runs out.
fn start_procedure(alloc: Global, layout: &Layout<'_>) -> Result<Procedure, Memory>
    requires { IsEmittable layout.now.local layout.now.schedule }
    ensures { let of = layout.now in let head = heads.start_head (own_header of.local of.profile) in
        IfOk result (λ p. procedure_tree p ≡ emitted.with_body head
        (stmts_of_list (renewing.start_body of.local (own_count of.schedule) of.schedule))) }
{
    let body = start_body(alloc, layout)?;
    let name = start_name(alloc, layout.local().row)?;
    Ok(procedure(name, false, Vec::new(alloc), body))
}

/// The procedure that resets the system.
///
/// Fails only when memory runs out.
fn reset_procedure(alloc: Global, layout: &Layout<'_>) -> Result<Procedure, Memory>
    requires { IsEmittable layout.now.local layout.now.schedule }
    ensures { let head = heads.reset_head (own_header layout.now.local layout.now.profile) in
        IfOk result (λ p. procedure_tree p ≡ emitted.with_body head (stmts_of_list
        (renewing.reset_body layout.now.local (own_count layout.now.schedule)))) }
{
    let body = reset_body(alloc, layout)?;
    let name = reset_name(alloc, layout.local().row)?;
    Ok(procedure(name, false, Vec::new(alloc), body))
}

/// The parameters of the procedure of each group, by its number.
fn all_group_params(alloc: Global, layout: &Layout<'_>) -> Result<Vec<Params>, Memory>
    requires { length layout.now.schedule.groups < 2 ^ 32 }
    ensures { IfOk result (λ v. v.items
        ≡ map (emitted.group_params layout.now.local layout.now.profile layout.now.schedule)
        (range_with_len 0 (length layout.now.schedule.groups))) }
{
    let mut params = Vec::new(alloc);
    for group in 0..layout.schedule().groups.len() {
        params.push(group_params(alloc, layout, group as u32)?)?;
    }
    Ok(params)
}

/// The procedure of function `j`, from 1 on, which calls these groups.
fn function_procedure(
    alloc: Global,
    layout: &Layout<'_>,
    wanted: &[Params],
    j: u32,
    called: &[u32],
) -> Result<Procedure, Memory>
    requires wanted { wanted.now
        ≡ map (emitted.group_params layout.now.local layout.now.profile layout.now.schedule)
        (range_with_len 0 (length layout.now.schedule.groups)) }
    requires first { 0 < j }
    requires last { j ≤ length layout.now.profile.functions }
    requires groups { All (λ g. g < length layout.now.schedule.groups) called.now }
    ensures { let of = layout.now in IfOk result (λ p. procedure_tree p
        ≡ emitted.function_procedure of.local of.profile of.schedule (j, called.now)) }
{
    let params = out_params(alloc, layout, j)?;
    let body = own_calls(alloc, &params, called, wanted)?;
    let name = out_name(alloc, layout.local().row, j)?;
    Ok(procedure(name, false, params.named(alloc)?, body))
}

/// Adds the procedures of some groups.
fn push_groups(
    alloc: Global,
    layout: &Layout<'_>,
    wanted: &[Params],
    groups: &[u32],
    procedures: &mut Vec<Procedure>,
) -> Result<(), Memory>
    requires emittable { IsEmittable layout.now.local layout.now.schedule }
    requires wanted { wanted.now
        ≡ map (emitted.group_params layout.now.local layout.now.profile layout.now.schedule)
        (range_with_len 0 (length layout.now.schedule.groups)) }
    requires groups { All (λ g. g < length layout.now.schedule.groups) groups.now }
    ensures { let of = layout.now in OnOk result
        (map procedure_tree procedures.new.items ≡ map procedure_tree procedures.old.items
        ++ map (emitted.group_procedure of.local of.profile of.schedule) groups.now) }
{
    for group in groups {
        let params = &wanted[*group as usize];
        procedures.push(group_procedure(alloc, layout, params, *group)?)?;
    }
    Ok(())
}

/// Adds the procedures of the functions that call these groups.
fn push_functions(
    alloc: Global,
    layout: &Layout<'_>,
    wanted: &[Params],
    functions: &[NodeList],
    procedures: &mut Vec<Procedure>,
) -> Result<(), Memory>
    requires wanted { wanted.now
        ≡ map (emitted.group_params layout.now.local layout.now.profile layout.now.schedule)
        (range_with_len 0 (length layout.now.schedule.groups)) }
    requires few { length layout.now.profile.functions < 2 ^ 32 }
    requires functions { length functions.now ≤ length layout.now.profile.functions }
    requires groups { All (All (λ g. g < length layout.now.schedule.groups)) functions.now }
    ensures { let of = layout.now in OnOk result
        (map procedure_tree procedures.new.items ≡ map procedure_tree procedures.old.items
        ++ map (emitted.function_procedure of.local of.profile of.schedule)
        (enumerate_from 1 functions.now)) }
{
    for (k, called) in functions.iter().enumerate() {
        let j = k as u32 + 1;
        procedures.push(function_procedure(alloc, layout, wanted, j, called.numbers())?)?;
    }
    Ok(())
}

/// The procedures of a system.
///
/// Fails only when memory runs out.
pub(crate) fn procedures(alloc: Global, layout: &Layout<'_>) -> Result<Vec<Procedure>, Memory>
    requires emittable { IsEmittable layout.now.local layout.now.schedule }
    requires agree { AgreeOnFunctions layout.now.profile layout.now.schedule }
    ensures { IfOk result (λ v. map procedure_tree v.items
        ≡ emitted.system_procedures layout.now.local layout.now.profile layout.now.schedule) }
{
    let wanted = all_group_params(alloc, layout)?;
    let mut all = Vec::new(alloc);
    push_groups(alloc, layout, &wanted, layout.code_groups(), &mut all)?;
    let functions = layout.schedule().functions.as_slice();
    push_functions(alloc, layout, &wanted, functions, &mut all)?;
    all.push(update_procedure(alloc, layout)?)?;
    all.push(start_procedure(alloc, layout)?)?;
    all.push(reset_procedure(alloc, layout)?)?;
    Ok(all)
}
