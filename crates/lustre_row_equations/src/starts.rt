// What a row is before the first tick.
ghost use Rattle.std.specs.Prelude.{◌≡◌, ◌<◌, length};
ghost use Rattle.diagram_meaning.specs.ResolvedTree.{diagram_of};
ghost use Rattle.diagram_meaning.specs.Rows as table;
ghost use Rattle.diagram_meaning.specs.Run as run;

use crate::reading::{op_at, type_at};
use base_core::Control;
use base_fixed_point::{FixType, quantize};
use diagram_blocks::{Kind, Op};
use diagram_meaning::{Resolved, Row};

// How a system is controlled; the root is plain.
fn system_control(rows: &[Row], system: Option<u32>) -> Control
    ensures { result ≡ table.system_control rows.now system }
{
    match system {
        None => Control::Plain,
        Some(e) => match rows.get(e as usize) {
            Some(row) => row.kind.control(),
            None => Control::Plain,
        },
    }
}

// The initial output of an Outport of a subsystem with a control; 0 of another row.
fn initial_output(kind: &Kind, around: Control, out: FixType) -> i64
    ensures { result ≡ run.initial_output kind.now around out }
{
    match (kind, around) {
        (_, Control::Plain) => 0,
        (Kind::Outport { initial, .. }, _) => quantize(initial, out),
        _ => 0,
    }
}

/// What row `b` is before the first tick.
pub(crate) fn start_of(r: &Resolved, b: u32) -> i64
    requires { b < length r.now.tree.table.rows }
    ensures { result ≡ run.start_of (diagram_of r.now) b }
{
    match op_at(r, b) {
        Op::Delay(start) => start,
        Op::Line { start, .. } => start,
        Op::Copy => {
            let row = r.row(b);
            let around = system_control(r.tree.table().rows.as_slice(), row.owner);
            initial_output(&row.kind, around, type_at(r, b))
        }
        _ => 0,
    }
}
