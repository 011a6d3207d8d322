// The root's two procedures.
ghost use Rattle.std.specs.Prelude.{◌≡◌, ◌+◌, ◌<◌, ◌^◌, ◌++◌, [], IfOk, OnOk, false, length, map};
ghost use Rattle.modules_profile.specs.Locals as locals;
ghost use Rattle.c_syntax.specs.Tree.{stmts_of_list};
ghost use Rattle.c_syntax.specs.Plain.{param_trees, procedure_tree, stmt_tree};
ghost use Rattle.emit_shape.specs.Assembled as assembled;
ghost use Rattle.emit_linker.specs.Places.{trees};
ghost use Rattle.emit_linker.specs.Roots as roots;

use crate::codes::Codes;
use crate::lists::small;
use crate::root_body::{start_body, step_body};
use crate::root_struct::root_params;
use base_core::{Memory, Text};
use c_syntax::{CType, Procedure, Stmt};
use emit_row_facts::{named, outports};
use modules_profile::Local;
use std::alloc::Global;

/// How many outputs the root has, of which there is one position more.
fn output_count(alloc: Global, root: &Local) -> Result<u32, Memory>
    ensures count { IfOk result (λ n. n ≡ length (locals.outports root.now)) }
    ensures few { IfOk result (λ n. n + 1 < 2 ^ 32) }
{
    let outports = outports(alloc, root)?;
    let count = small(outports.len())?;
    if count == u32::MAX {
        return Err(Memory);
    }
    Ok(count)
}

/// A procedure of the root.
fn procedure(
    alloc: Global,
    name: &str,
    of: u32,
    params: Vec<(Text, CType)>,
    body: Vec<Stmt>,
) -> Result<Procedure, Memory>
    ensures { IfOk result (λ p. procedure_tree p
        ≡ record {
          name = name.now;
          private = false;
          of = of;
          params = param_trees params.items;
          body = stmts_of_list (map stmt_tree body.items);
        }) }
{
    Ok(Procedure {
        name: named(alloc, name)?,
        private: false,
        of,
        params,
        body,
    })
}

/// The procedure that starts the root, which has so many outputs.
fn start_procedure(alloc: Global, codes: &Codes<'_>, count: u32) -> Result<Procedure, Memory>
    requires { count + 1 < 2 ^ 32 }
    ensures { IfOk result (λ p. procedure_tree p
        ≡ roots.root_start (trees codes.now.list.now) count) }
{
    let body = start_body(alloc, codes, count)?;
    procedure(alloc, "root_start", codes.count(), Vec::new(alloc), body)
}

/// The procedure that makes a step of the root, which has so many outputs.
fn step_procedure(
    alloc: Global,
    codes: &Codes<'_>,
    root: &Local,
    count: u32,
    hyper: u32,
) -> Result<Procedure, Memory>
    requires { count + 1 < 2 ^ 32 }
    ensures { IfOk result (λ p. procedure_tree p
        ≡ roots.root_step (trees codes.now.list.now) (assembled.root_params [] root.now 0) count
        hyper) }
{
    let params = root_params(alloc, root)?;
    let body = step_body(alloc, codes, &params, count, hyper)?;
    procedure(alloc, "root_step", codes.count(), params, body)
}

/// Adds the procedures that start the root and that make a step.
pub(crate) fn push_root_procedures(
    alloc: Global,
    codes: &Codes<'_>,
    root: &Local,
    hyper: u32,
    list: &mut Vec<Procedure>,
) -> Result<(), Memory>
    ensures { OnOk result (map procedure_tree list.new.items ≡ map procedure_tree list.old.items
        ++ assembled.root_procedures (trees codes.now.list.now) root.now hyper) }
{
    let count = output_count(alloc, root)?;
    list.push(start_procedure(alloc, codes, count)?)?;
    list.push(step_procedure(alloc, codes, root, count, hyper)?)?;
    Ok(())
}
