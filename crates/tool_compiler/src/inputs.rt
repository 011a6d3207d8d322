ghost use Rattle.std.specs.Prelude.{◌≡◌, ◌<◌, None, count_by, length, map, IfOk, IfSome};
ghost use Rattle.diagram_meaning.specs.Diagram.{type_at};
ghost use Rattle.diagram_meaning.specs.Rows.{inports_of};
ghost use Rattle.tool_compiler.specs.Inputs.{is_root_inport as is_inport_of_root, is_root_inport_with, root_inport_with as inport_among};

use base_core::Memory;
use base_fixed_point::FixType;
use diagram_blocks::Kind;
use diagram_meaning::Row;
use std::alloc::Global;

/// Whether a row is an Inport of the root.
fn is_root_inport(row: &Row) -> bool
    ensures { result ≡ is_inport_of_root row.now }
{
    row.owner.is_none() && matches!(row.kind, Kind::Inport { .. })
}

/// Whether a row is the Inport of the root with this port.
fn is_root_port(row: &Row, port: usize) -> bool
    ensures { result ≡ is_root_inport_with port row.now }
{
    match row.kind {
        Kind::Inport { port: own } => row.owner.is_none() && own as usize == port,
        _ => false,
    }
}

/// How many rows are Inports of the root.
fn inport_count(rows: &[Row]) -> usize
    ensures { result ≡ count_by is_inport_of_root rows.now }
{
    let mut count = 0;
    for row in rows {
        if is_root_inport(row) {
            count += 1;
        }
    }
    count
}

/// The number of the first row that is the Inport of the root with this port.
fn inport_with(rows: &[Row], port: usize) -> Option<usize>
    ensures found { result ≡ inport_among rows.now port }
    ensures inside { IfSome result (λ b. b < length rows.now) }
{
    for (b, row) in rows.iter().enumerate() {
        if is_root_port(row, port) {
            return Some(b);
        }
    }
    None
}

/// The types of the root's inputs, by port.
///
/// Fails only when memory runs out.
pub(crate) fn input_types(
    alloc: Global,
    rows: &[Row],
    types: &[FixType],
) -> Result<Vec<FixType>, Memory>
    requires { length types.now ≡ length rows.now }
    ensures { IfOk result (λ v. v.items ≡ map (type_at types.now) (inports_of rows.now None)) }
{
    let mut inputs = Vec::new(alloc);
    for port in 1..inport_count(rows) + 1 {
        if let Some(row) = inport_with(rows, port) {
            inputs.push(types[row])?;
        }
    }
    Ok(inputs)
}
