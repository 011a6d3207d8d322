use super::{DELAYED, resolved, trace};
use std::alloc::Global;
use std::test::Fail;
use test_solver::is_trace_for;

/// Whether these rows are a trace for a model of one input.
fn fits_one_input(alloc: Global, rows: &str) -> Result<bool, Fail> {
    let inputs = trace(alloc, rows)?;
    let r = resolved(alloc, DELAYED)?;
    Ok(is_trace_for(&r, inputs.as_slice()))
}

#[test]
fn a_row_has_just_one_number_for_each_input(rt: HostRuntime) -> Result<(), Fail> {
    for &(rows, fits) in &[("1; 2", true), ("", false), ("1 2", false)] {
        assert_eq!(rt; fits_one_input(rt.alloc(), rows)?, fits, "{rows}");
    }
    Ok(())
}
