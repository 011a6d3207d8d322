use super::{DELAYED, resolved, trace};
use diagram_meaning::Resolved;
use diagram_needs::find_loop;
use std::alloc::Global;
use std::test::Fail;
use test_solver::{is_trace_for, plain_run};

/// The values of all rows, tick by tick, in the run of a model over a trace.
fn values(alloc: Global, r: &Resolved, inputs: &[Vec<i64>]) -> Result<Vec<Vec<i64>>, Fail> {
    let None = find_loop(alloc, r)? else {
        return Err("there is a loop".into());
    };
    if !is_trace_for(r, inputs) {
        return Err("the trace is not one for the model".into());
    }
    Ok(plain_run(alloc, r, inputs)?)
}

/// The same of a model of these parts over these rows, as a text.
fn told(alloc: Global, parts: &str, rows: &str) -> Result<String, Fail> {
    let inputs = trace(alloc, rows)?;
    let r = resolved(alloc, parts)?;
    let run = values(alloc, &r, inputs.as_slice())?;
    Ok(format!(in alloc; "{run:?}")?)
}

#[test]
fn equations_are_run(rt: HostRuntime) -> Result<(), Fail> {
    let run = told(rt.alloc(), DELAYED, "1; 2; 3")?;
    assert_eq!(rt; run.as_str(), "[[1, 7, 7], [2, 1, 1], [3, 2, 2]]");
    Ok(())
}
