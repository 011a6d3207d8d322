ghost use Rattle.std.specs.Prelude.{◌≡◌, ◌<◌, All, IfOk, IfSome, count_by, find, length, map};
ghost use Rattle.diagram_meaning.specs.Rows.{by_port, row_at, row_numbers, is_own};
ghost use Rattle.diagram_meaning.specs.Types.{type_at};
ghost use Rattle.emit_shape.specs.Names.{value_name as value_field};
ghost use Rattle.tool_system_driver.specs.Ports.{is_at, is_port as is_port_kind};

use crate::names::value_name;
use base_core::{Memory, Text};
use base_fixed_point::FixType;
use diagram_blocks::Kind;
use diagram_meaning::{Row, same_system};
use std::alloc::Global;

/// A side of a system, on which it has ports from 1 on.
#[derive(Clone, Copy, Debug, PartialEq, Eq, Drop)]
pub(crate) enum Side {
    Inputs,
    Outputs,
}

// Whether a row of this kind is a port on a side of its system.
fn is_port(side: Side, kind: &Kind) -> bool
    ensures { result ≡ is_port_kind side kind.now }
{
    match side {
        Side::Inputs => kind.is_inport(),
        Side::Outputs => kind.is_outport(),
    }
}

// Whether a row is a port on a side of a system.
fn is_on(row: &Row, system: Option<u32>, side: Side) -> bool
    ensures { result ≡ is_own (is_port_kind side) system row.now }
{
    same_system(row.owner, system) && is_port(side, &row.kind)
}

// Whether a row is the port with a number on a side of a system.
fn is_with(row: &Row, system: Option<u32>, side: Side, port: usize) -> bool
    ensures { result ≡ is_at (is_port_kind side) system port row.now }
{
    is_on(row, system, side) && row.kind.port() as usize == port
}

// How many ports a system has on a side.
fn port_count(rows: &[Row], system: Option<u32>, side: Side) -> usize
    ensures { result ≡ count_by (is_own (is_port_kind side) system) rows.now }
{
    let mut count = 0;
    for row in rows {
        if is_on(row, system, side) {
            count += 1;
        }
    }
    count
}

// The number of the first row that is the port with a number on a side of a system.
fn row_with(rows: &[Row], system: Option<u32>, side: Side, port: usize) -> Option<usize>
    ensures found { result
        ≡ find (λ b. is_at (is_port_kind side) system port (row_at rows.now b))
        (row_numbers rows.now) }
    ensures inside { IfSome result (λ b. b < length rows.now) }
{
    for (b, row) in rows.iter().enumerate() {
        if is_with(row, system, side, port) {
            return Some(b);
        }
    }
    None
}

/// The rows that are the ports on a side of a system, by number.
///
/// Fails only when memory runs out.
pub(crate) fn rows_by_port(
    alloc: Global,
    rows: &[Row],
    system: Option<u32>,
    side: Side,
) -> Result<Vec<usize>, Memory>
    ensures ports { IfOk result (λ v. v.items ≡ by_port rows.now system (is_port_kind side)) }
    ensures inside { IfOk result (λ v. All (λ b. b < length rows.now) v.items) }
{
    let mut found = Vec::new(alloc);
    for port in 1..port_count(rows, system, side) + 1 {
        if let Some(b) = row_with(rows, system, side, port) {
            found.push(b)?;
        }
    }
    Ok(found)
}

/// The types of some rows.
///
/// Fails only when memory runs out.
pub(crate) fn types_at(
    alloc: Global,
    types: &[FixType],
    rows: &[usize],
) -> Result<Vec<FixType>, Memory>
    requires { All (λ b. b < length types.now) rows.now }
    ensures { IfOk result (λ v. v.items ≡ map (type_at types.now) rows.now) }
{
    let mut found = Vec::new(alloc);
    for b in rows {
        found.push(types[*b])?;
    }
    Ok(found)
}

/// The names of the fields for the values of some rows.
///
/// Fails only when memory runs out.
pub(crate) fn value_names(alloc: Global, rows: &[usize]) -> Result<Vec<Text>, Memory>
    ensures { IfOk result (λ v. v.items ≡ map value_field rows.now) }
{
    let mut names = Vec::new(alloc);
    for b in rows {
        names.push(value_name(alloc, *b)?)?;
    }
    Ok(names)
}
