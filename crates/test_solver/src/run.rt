ghost use Rattle.std.specs.Prelude.{◌≡◌, IfOk, None, map};
ghost use Rattle.diagram_activity.specs.declared.TrigMem.TheVariants.{NotYet};
ghost use Rattle.diagram_meaning.specs.ResolvedTree.{IsResolvedTree, diagram_of};
ghost use Rattle.diagram_meaning.specs.Needs.{needs_of, HasNoLoop};
ghost use Rattle.diagram_meaning.specs.Run as run;
ghost use Rattle.diagram_meaning.specs.Traces.{IsTrace};
ghost use Rattle.diagram_typed_runs.specs.Fitting.{IsFit};
ghost use Rattle.test_solver.specs.Values.{AreValuesOf};

use crate::reading::row_count;
use crate::row::{State, first_memory, start};
use crate::tick::next_state;
use base_core::Memory;
use diagram_activity::TrigMem;
use diagram_meaning::Resolved;
use std::alloc::Global;

/// The values of a diagram's run over a trace, by tick and row. The diagram has no loop, and each row of the trace has just one
/// number for each Inport of the root, by its port and in its type.
///
/// The plain way, for others to be compared with: at each tick all rows are gone over until no value changes. The only error
/// is that memory runs out.
pub fn plain_run(alloc: Global, r: &Resolved, inputs: &[Vec<i64>]) -> Result<Vec<Vec<i64>>, Memory>
    requires no_loop { HasNoLoop (needs_of (diagram_of r.now)) }
    requires inputs { IsTrace (diagram_of r.now) None (map (λ x. x.items) inputs.now) }
    ensures { IfOk result (λ vs. AreValuesOf (diagram_of r.now) (map (λ x. x.items) inputs.now)
        (map (λ v. v.items) vs.items)) }
{
    let mut state = first_state(alloc, r)?;
    let mut values = Vec::new(alloc);
    for (tick, row) in inputs.iter().enumerate() {
        state = next_state(alloc, r, tick, row.as_slice(), &state)?;
        values.push(Vec::from_slice(alloc, state.values.as_slice())?)?;
    }
    Ok(values)
}

// What is before the first tick.
fn first_state(alloc: Global, r: &Resolved) -> Result<State, Memory>
    ensures values { IfOk result (λ first. first.values.items
        ≡ run.values_by (diagram_of r.now) None (run.start_of (diagram_of r.now))) }
    ensures memories { IfOk result (λ first. first.memories.items
        ≡ run.memories_by (diagram_of r.now) None (run.initial_memory (diagram_of r.now))) }
    ensures triggers { IfOk result (λ first. first.triggers.items
        ≡ run.triggers_by (diagram_of r.now) None (λ e. NotYet)) }
    ensures resolved { IfOk result (λ first. IsResolvedTree r.now) }
    ensures fit { IfOk result
        (λ first. IsFit (diagram_of r.now) first.values.items first.memories.items
        first.triggers.items) }
{
    let mut values = Vec::new(alloc);
    let mut memories = Vec::new(alloc);
    let mut triggers = Vec::new(alloc);
    for b in 0..row_count(r) {
        values.push(start(r, b))?;
        memories.push(first_memory(alloc, r, b)?)?;
        triggers.push(TrigMem::NotYet)?;
    }
    Ok(State {
        values,
        memories,
        triggers,
    })
}
