// The root of a program: its procedures and its outputs.
ghost use Rattle.std.specs.Prelude.{◌≡◌, ◌+◌, [], IfOk, length, map, slice_get, unwrap_or, replicate, pos};
ghost use Rattle.c_semantics.specs.Machine.{call_from_outside};
ghost use Rattle.c_syntax.specs.Outputs.{numbers_from, output_name};
ghost use Rattle.c_syntax.specs.Plain.{program_tree};
ghost use Rattle.c_syntax.specs.PlainField.{field_trees};
ghost use Rattle.c_syntax.specs.RootFields.{field_position, output_fields, root_fields, procedure_named};
ghost use Rattle.c_syntax.specs.Lawful.{IsLawful};
ghost use Rattle.c_syntax.specs.Tree.{struct_fields};
ghost use Rattle.c_interpreter.specs.Codes.{code_tree};
ghost use Rattle.c_interpreter.specs.Roots.{root_ended, AreTables, AreCounts};
ghost use Rattle.c_interpreter.specs.Seen.{seen};
ghost use Rattle.c_interpreter.specs.Slots.{layout_at, number_in};
ghost use Rattle.c_interpreter.specs.Sound.{IsProcedureOf, zero_at};
ghost use Rattle.c_interpreter.specs.States.{filled};

use crate::code::Code;
use crate::frames::Frame;
use crate::instances::counts_of;
use crate::layouts::layouts_of;
use crate::names::{are_logged, field_named, procedure_named};
use crate::slots::{Layout, Slot, number_in};
use crate::statements::{Invocation, run_procedure};
use c_syntax::{Cost, Field, Program, Stuck};
use std::alloc::{AllocError, Global};

/// A call from outside of a procedure of a struct, on all the numbers of an instance.
pub(crate) fn run_root(
    code: &Code,
    root: u32,
    procedure: usize,
    inputs: &[i64],
    numbers: &mut [i64],
) -> Result<Cost, Stuck>
    requires there { IsProcedureOf (code_tree code.now) procedure root }
    requires room { length numbers.old ≡ (layout_at code.now.layouts root).size }
    ensures { root_ended (zero_at (code_tree code.now) root) result numbers.new
        ≡ seen 0 (call_from_outside (code_tree code.now) procedure [] inputs.now
        (filled (zero_at (code_tree code.now) root) numbers.old)) }
{
    let frame = Frame {
        code: code.again(),
        level: code.program().procedures.len(),
        of: root,
        values: &[],
    };
    let mut cost = Cost { steps: 0, calls: 0 };
    let invocation = Invocation {
        procedure,
        of: root,
        arguments: inputs,
    };
    match run_procedure(&frame, &invocation, numbers, &mut cost) {
        Ok(()) => Ok(cost),
        Err(halt) => Err(halt.place()),
    }
}

fn output(slots: &[Slot], field: usize, numbers: &[i64]) -> i64
    ensures { result ≡ number_in numbers.now (slice_get slots.now field) }
{
    number_in(numbers, slots.get(field).copied())
}

/// Writes the numbers of these fields into a slice.
pub(crate) fn put_outputs(slots: &[Slot], fields: &[usize], numbers: &[i64], out: &mut [i64])
    requires { length fields.now ≡ length out.old }
    ensures { out.new ≡ map (λ f. number_in numbers.now (slice_get slots.now f)) fields.now }
{
    for i in 0..fields.len() {
        out[i] = output(slots, fields[i], numbers);
    }
}

#[tactic(auto, using(crate::proofs::RootLaws::field_position_is))]
fn field_position(fields: &[Field], name: &[u8]) -> usize
    ensures { result ≡ field_position (field_trees fields.now) name.now }
{
    field_named(fields, name).unwrap_or(0)
}

fn output_field(alloc: Global, fields: &[Field], before: u32) -> Result<usize, AllocError>
    ensures { IfOk result (λ f. f ≡ field_position (field_trees fields.now) (output_name (before + 1))) }
{
    let name = format!(in alloc; "y{}", u64::from(before) + 1)?;
    Ok(field_position(fields, name.as_bytes()))
}

/// The positions of the first so many outputs y1, y2 and so on. Fails where memory runs out.
#[tactic(auto, using(crate::proofs::RootLaws::outputs_more))]
pub(crate) fn output_fields(
    alloc: Global,
    fields: &[Field],
    count: u32,
) -> Result<Vec<usize>, AllocError>
    ensures { IfOk result (λ v. v.items
        ≡ map (field_position (field_trees fields.now)) (map output_name (numbers_from 1 count))) }
{
    let mut positions = Vec::new(alloc);
    for k in 0..count {
        positions.push(output_field(alloc, fields, k)?)?;
    }
    Ok(positions)
}

/// The fields of the struct at a position.
pub(crate) fn fields_of(program: &Program, of: u32) -> &[Field]
    ensures { field_trees result.now ≡ struct_fields (program_tree program.now).structs of }
{
    match program.structs.get(of as usize) {
        Some(s) => &s.fields,
        None => &[],
    }
}

/// How many numbers an instance of the struct at a position has.
pub(crate) fn size_at(layouts: &[Layout], of: u32) -> usize
    ensures { result ≡ (layout_at layouts.now of).size }
{
    match layouts.get(of as usize) {
        Some(layout) => layout.size(),
        None => 0,
    }
}

/// So many numbers 0. Fails where memory runs out.
pub(crate) fn zeros(alloc: Global, count: usize) -> Result<Vec<i64>, AllocError>
    ensures { IfOk result (λ v. v.items ≡ replicate count (pos 0)) }
{
    vec![in alloc; 0; count]
}

/// What a machine keeps beside the program and its numbers.
#[derive(Drop)]
pub(crate) struct Tables {
    pub(crate) layouts: Vec<Layout>,
    pub(crate) logged: Vec<bool>,
    pub(crate) counts: Vec<u32>,
    pub(crate) root: u32,
    pub(crate) start: usize,
    pub(crate) step: usize,
    pub(crate) outputs: Vec<usize>,
}

// The position of the procedure with a name, which is there.
#[tactic(auto, using(crate::proofs::RootLaws::procedure_position_is))]
fn procedure_position(program: &Program, name: &[u8]) -> usize
    ensures { result ≡ unwrap_or (procedure_named (program_tree program.now) name.now) 0 }
{
    procedure_named(&program.procedures, name).unwrap_or(0)
}

/// The tables of a lawful program, which has so many outputs. Fails where memory runs out, where an instance has more numbers
/// than a `usize` can count, or where it is more instances, with those inside, than a `u32` can count.
pub(crate) fn tables_of(alloc: Global, program: &Program, count: u32) -> Result<Tables, AllocError>
    requires lawful { IsLawful (program_tree program.now) }
    requires count { count ≡ length (output_fields (root_fields (program_tree program.now))) }
    ensures tables { IfOk result
        (λ t. AreTables (program_tree program.now) t.layouts.items t.logged.items t.root t.start
        t.step t.outputs.items) }
    ensures counts { IfOk result (λ t. AreCounts (program_tree program.now) t.counts.items t.root) }
{
    let layouts = layouts_of(alloc, &program.structs)?;
    let logged = are_logged(alloc, &program.procedures)?;
    let start = procedure_position(program, b"root_start");
    let step = procedure_position(program, b"root_step");
    let root = program.procedures[start].of;
    let outputs = output_fields(alloc, fields_of(program, root), count)?;
    let counts = counts_of(alloc, &program.structs)?;
    Ok(Tables {
        layouts,
        logged,
        counts,
        root,
        start,
        step,
        outputs,
    })
}
