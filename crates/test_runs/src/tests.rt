mod rates;
mod runs;
mod shared;
mod systems;
mod times;
mod traces;

use diagram_meaning::Resolved;
use diagram_verdict::accept_model;
use std::alloc::Global;
use std::test::Fail;
use test_models::model_of;

/// A model of one input, which comes a tick later after a delay; that begins with 7.
const DELAYED: &str =
    "Inport a OutDataTypeStr=int32; UnitDelay d InitialCondition=7; Outport o; a 1 > d 1; d 1 > o 1";

/// The resolved model of a file.
fn accepted(alloc: Global, file: &str) -> Result<Resolved, Fail> {
    match accept_model(alloc, file.as_bytes()) {
        Ok(model) => Ok(model),
        Err(_) => Err("the model is refused".into()),
    }
}

/// The resolved model of these parts.
fn resolved(alloc: Global, parts: &str) -> Result<Resolved, Fail> {
    accepted(alloc, &model_of(alloc, parts)?)
}

/// The trace with these rows, which `;` parts, of numbers that blanks part.
fn trace(alloc: Global, rows: &str) -> Result<Vec<Vec<i64>>, Fail> {
    let mut trace = Vec::new(alloc);
    for row in rows.split(';') {
        trace.push(numbers(alloc, row)?)?;
    }
    Ok(trace)
}

/// The numbers of a row.
fn numbers(alloc: Global, row: &str) -> Result<Vec<i64>, Fail> {
    let mut numbers = Vec::new(alloc);
    for word in row.split_whitespace() {
        numbers.push(word.parse::<i64>()?)?;
    }
    Ok(numbers)
}
