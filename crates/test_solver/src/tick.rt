ghost use Rattle.std.specs.Prelude.{◌≡◌, ◌<◌, List, None, IfOk, length, ℤ};
ghost use Rattle.diagram_meaning.specs.ResolvedTree.{diagram_of};
ghost use Rattle.diagram_meaning.specs.Needs.{needs_of, HasNoLoop};
ghost use Rattle.diagram_meaning.specs.Run as run;
ghost use Rattle.diagram_typed_runs.specs.Fitting.{AreFit, AreInTypes, IsFit};
ghost use Rattle.diagram_typed_runs.specs.Traces.{HasInputs};
ghost use Rattle.test_solver.specs.Ticks.{HasItsInputs, IsFitBefore, diagram_in, row_memory, row_value};

use crate::reading::row_count;
use crate::row::{State, Tick, row_memory, row_trigger, row_value};
use crate::samples::Samples;
use base_core::Memory;
use diagram_activity::TrigMem;
use diagram_meaning::Resolved;
use std::alloc::Global;

// A tick: the state that follows, by the equations of the tick.
pub(crate) fn next_state(
    alloc: Global,
    r: &Resolved,
    tick: usize,
    inputs: &[i64],
    before: &State,
) -> Result<State, Memory>
    requires no_loop { HasNoLoop (needs_of (diagram_of r.now)) }
    requires inputs { HasInputs (diagram_of r.now) None inputs.now }
    requires before { IsFit (diagram_of r.now) before.now.values.items before.now.memories.items
        before.now.triggers.items }
    ensures tick { IfOk result (λ after. run.IsTick (diagram_of r.now) None tick inputs.now
        before.now.values.items before.now.memories.items before.now.triggers.items
        after.values.items after.memories.items after.triggers.items) }
    ensures fit { IfOk result
        (λ after. IsFit (diagram_of r.now) after.values.items after.memories.items
        after.triggers.items) }
{
    let tick = Tick {
        diagram: r,
        number: tick,
        inputs,
        before,
    };
    let values = solution(alloc, &tick)?;
    let memories = memories_after(alloc, &tick, values.as_slice())?;
    let triggers = triggers_after(alloc, r, before.triggers.as_slice(), values.as_slice())?;
    Ok(State {
        values,
        memories,
        triggers,
    })
}

// The values of a tick. Each round makes the values of all rows from those of the round before, until none changes. As
// many rounds as the longest walk along needs are enough, and that has no more steps than there are rows.
fn solution(alloc: Global, tick: &Tick) -> Result<Vec<i64>, Memory>
    requires no_loop { HasNoLoop (needs_of (diagram_in tick.now)) }
    requires inputs { HasItsInputs tick.now }
    requires before { IsFitBefore tick.now }
    ensures solves { IfOk result (λ v. v.items ≡ run.values_by (diagram_in tick.now) None
        (row_value tick.now v.items)) }
    ensures fit { IfOk result (λ v. AreFit (diagram_in tick.now) v.items) }
{
    let mut values = Vec::from_slice(alloc, tick.before.values.as_slice())?;
    for _turn in 0..row_count(tick.diagram) + 2 {
        let next = round(alloc, tick, values.as_slice())?;
        if next.as_slice() == values.as_slice() {
            return Ok(next);
        }
        values = next;
    }
    Ok(values)
}

// The values of all rows, made from these.
fn round(alloc: Global, tick: &Tick, values: &[i64]) -> Result<Vec<i64>, Memory>
    requires inputs { HasItsInputs tick.now }
    requires before { IsFitBefore tick.now }
    requires values { AreFit (diagram_in tick.now) values.now }
    ensures values { IfOk result (λ v. v.items ≡ run.values_by (diagram_in tick.now) None
        (row_value tick.now values.now)) }
    ensures fit { IfOk result (λ v. AreFit (diagram_in tick.now) v.items) }
{
    let mut next = Vec::new(alloc);
    for b in 0..row_count(tick.diagram) {
        next.push(row_value(alloc, tick, values, b)?)?;
    }
    Ok(next)
}

// What all rows remember after a tick with these values.
fn memories_after(alloc: Global, tick: &Tick, values: &[i64]) -> Result<Vec<Samples>, Memory>
    requires inputs { HasItsInputs tick.now }
    requires before { IsFitBefore tick.now }
    requires values { AreFit (diagram_in tick.now) values.now }
    ensures memories { IfOk result (λ m. m.items ≡ run.memories_by (diagram_in tick.now) None
        (row_memory tick.now values.now)) }
    ensures fit { IfOk result (λ m. AreInTypes (diagram_in tick.now) m.items) }
{
    let mut next = Vec::new(alloc);
    for b in 0..row_count(tick.diagram) {
        next.push(row_memory(alloc, tick, values, b)?)?;
    }
    Ok(next)
}

// What the triggers of all rows remember after a tick with these values.
fn triggers_after(
    alloc: Global,
    r: &Resolved,
    before: &[TrigMem],
    values: &[i64],
) -> Result<Vec<TrigMem>, Memory>
    requires before { length before.now ≡ length r.now.tree.table.rows }
    requires values { length values.now ≡ length r.now.tree.table.rows }
    ensures { (x : List ℤ) → IfOk result (λ g. g.items ≡ run.triggers_by (diagram_of r.now) None
        (run.row_trigger (diagram_of r.now) None x before.now values.now)) }
{
    let mut next = Vec::new(alloc);
    for e in 0..row_count(r) {
        next.push(row_trigger(r, before, values, e))?;
    }
    Ok(next)
}
