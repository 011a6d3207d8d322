ghost use Rattle.std.specs.Prelude.{◌≡◌, ◌<◌, List, [], None, IfOk, if◌then◌else◌, length, ℤ};
ghost use Rattle.diagram_activity.specs.declared.TrigMem.TheVariants.{NotYet};
ghost use Rattle.base_fixed_point.specs.Conversion.{InType};
ghost use Rattle.diagram_blocks.specs.Value.{input, rhs as value_of};
ghost use Rattle.diagram_meaning.specs.ResolvedTree.{diagram_of};
ghost use Rattle.diagram_meaning.specs.Rows.{row_at, is_triggered as is_triggered_control, system_control as control_of_system};
ghost use Rattle.diagram_meaning.specs.Diagram.{op_at, type_at};
ghost use Rattle.diagram_meaning.specs.Run as run;
ghost use Rattle.diagram_typed_runs.specs.Fitting.{AreFit};
ghost use Rattle.diagram_typed_runs.specs.Traces.{HasInputs};
ghost use Rattle.test_solver.specs.Ticks.{HasItsInputs, IsFitBefore, diagram_in, row_memory, row_value};

use crate::activity::{is_active, is_disabled, is_off, runs, system_control, trigger_value};
use crate::reading::{input_values, op, row, type_of};
use crate::samples::Samples;
use base_core::{Control, Memory};
use base_fixed_point::quantize;
use diagram_activity::{TrigMem, next_memory};
use diagram_blocks::{Kind, Op, rhs};
use diagram_meaning::Resolved;
use std::alloc::Global;

// What each row has before a tick, by its number: its value, what it remembers, and what its trigger remembers.
#[derive(Drop)]
pub(crate) struct State {
    pub values: Vec<i64>,
    pub memories: Vec<Samples>,
    pub triggers: Vec<TrigMem>,
}

// A tick of a diagram: its number from 0, the inputs at it, and the state before it.
#[derive(Drop)]
pub(crate) struct Tick<'d, 'i, 's> {
    pub diagram: &'d Resolved,
    pub number: usize,
    pub inputs: &'i [i64],
    pub before: &'s State,
}

// What row `b` is before the first tick.
pub(crate) fn start(r: &Resolved, b: usize) -> i64
    requires { b < length r.now.tree.table.rows }
    ensures { result ≡ run.start_of (diagram_of r.now) b }
{
    match op(r, b) {
        Op::Delay(initial) | Op::Line { start: initial, .. } => initial,
        Op::Copy => initial_output(r, b),
        _ => 0,
    }
}

// The initial output of an Outport of a subsystem with a control, else 0.
fn initial_output(r: &Resolved, b: usize) -> i64
    requires { b < length r.now.tree.table.rows }
    ensures { let it = row_at r.now.tree.table.rows b in
        result ≡ run.initial_output it.kind (control_of_system r.now.tree.table.rows it.owner)
        (type_at r.now.types b) }
{
    let row = row(r, b);
    match (row.kind, system_control(r, row.owner)) {
        (Kind::Outport { .. }, Control::Plain) => 0,
        (Kind::Outport { initial, .. }, _) => quantize(&initial, type_of(r, b)),
        _ => 0,
    }
}

// What row `b` remembers before the first tick: its start, as many times as it has samples.
pub(crate) fn first_memory(alloc: Global, r: &Resolved, b: usize) -> Result<Samples, Memory>
    requires { b < length r.now.tree.table.rows }
    ensures { IfOk result (λ m. m ≡ run.initial_memory (diagram_of r.now) b) }
{
    Samples::repeated(alloc, start(r, b), op(r, b).delay_length() as usize)
}

// The value of row `b` at a tick, from these values of the tick.
pub(crate) fn row_value(alloc: Global, tick: &Tick, values: &[i64], b: usize) -> Result<i64, Memory>
    requires inputs { HasItsInputs tick.now }
    requires before { IsFitBefore tick.now }
    requires values { AreFit (diagram_in tick.now) values.now }
    requires row { b < length tick.now.diagram.now.tree.table.rows }
    ensures { IfOk result (λ v. v ≡ row_value tick.now values.now b) }
{
    let r = tick.diagram;
    let row = row(r, b);
    if !row.kind.has_value() {
        return Ok(0);
    }
    let before = tick.before;
    let triggers = before.triggers.as_slice();
    if row.kind.is_reset_outport() && is_disabled(r, triggers, values, row.owner) {
        return Ok(start(r, b));
    }
    if !runs(r, tick.number, triggers, values, b) {
        return Ok(before.values[b]);
    }
    computed(alloc, tick, values, before.memories[b].first(), b)
}

// What row `b` computes of its inputs and the first that it remembers.
fn computed(
    alloc: Global,
    tick: &Tick,
    values: &[i64],
    memory: i64,
    b: usize,
) -> Result<i64, Memory>
    requires inputs { HasItsInputs tick.now }
    requires values { AreFit (diagram_in tick.now) values.now }
    requires memory { InType (type_at tick.now.diagram.now.types b) memory }
    requires row { b < length tick.now.diagram.now.tree.table.rows }
    ensures { let d = diagram_in tick.now in IfOk result (λ v. v
        ≡ value_of (op_at d b)
        (run.input_values d None tick.now.inputs.now values.now [] b) memory) }
{
    let read = input_values(alloc, tick.diagram, tick.inputs, values, b)?;
    Ok(rhs(&op(tick.diagram, b), read.as_slice(), memory))
}

// What row `b` remembers after a tick with these values, nothing where it is no delay.
pub(crate) fn row_memory(
    alloc: Global,
    tick: &Tick,
    values: &[i64],
    b: usize,
) -> Result<Samples, Memory>
    requires inputs { HasItsInputs tick.now }
    requires before { IsFitBefore tick.now }
    requires values { AreFit (diagram_in tick.now) values.now }
    requires row { b < length tick.now.diagram.now.tree.table.rows }
    ensures { IfOk result (λ m. m ≡ (if run.has_memory (diagram_in tick.now) None b
        then row_memory tick.now values.now b else [])) }
{
    let r = tick.diagram;
    if !op(r, b).is_delay() {
        return Ok(Samples::none(alloc));
    }
    let triggers = tick.before.triggers.as_slice();
    if is_off(r, triggers, values, row(r, b).owner) {
        return first_memory(alloc, r, b);
    }
    let memory = &tick.before.memories[b];
    if !runs(r, tick.number, triggers, values, b) {
        return memory.copied(alloc);
    }
    let taken = first_input(alloc, r, tick.inputs, values, b)?;
    memory.moved_on(alloc, taken)
}

// The value of the first input of row `b`, 0 where it has none.
fn first_input(
    alloc: Global,
    r: &Resolved,
    inputs: &[i64],
    values: &[i64],
    b: usize,
) -> Result<i64, Memory>
    requires inputs { HasInputs (diagram_of r.now) None inputs.now }
    requires values { length values.now ≡ length r.now.tree.table.rows }
    requires row { b < length r.now.tree.table.rows }
    ensures { IfOk result (λ v. v
        ≡ input (run.input_values (diagram_of r.now) None inputs.now values.now [] b) 0) }
{
    let read = input_values(alloc, r, inputs, values, b)?;
    match read.as_slice().first() {
        Some(value) => Ok(*value),
        None => Ok(0),
    }
}

// What the trigger of row `e` remembers after a tick with these values, nothing where it has none.
pub(crate) fn row_trigger(r: &Resolved, before: &[TrigMem], values: &[i64], e: usize) -> TrigMem
    requires before { length before.now ≡ length r.now.tree.table.rows }
    requires values { length values.now ≡ length r.now.tree.table.rows }
    requires row { e < length r.now.tree.table.rows }
    ensures { (x : List ℤ) → result ≡ (if run.has_trigger (diagram_of r.now) None e
        then run.row_trigger (diagram_of r.now) None x before.now values.now e else NotYet) }
{
    let row = row(r, e);
    if !is_triggered(&row.kind.control()) || is_off(r, before, values, row.owner) {
        return TrigMem::NotYet;
    }
    let outside = is_active(r, before, values, row.owner);
    next_memory(outside, before[e], trigger_value(r, values, e))
}

// Whether a subsystem has a trigger, alone or beside an enable.
fn is_triggered(control: &Control) -> bool
    ensures { result ≡ is_triggered_control control.now }
{
    match control {
        Control::Plain | Control::Enabled { .. } => false,
        Control::Triggered(_) | Control::Both { .. } => true,
    }
}
