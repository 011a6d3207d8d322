ghost use Rattle.std.specs.Prelude.{◌≡◌};
ghost use Rattle.diagram_meaning.specs.Run as run;
ghost use Rattle.emit_shape.specs.RowStarts.{row_start as start_of_row};

use base_core::Control;
use base_fixed_point::{FixType, quantize};
use diagram_blocks::{Kind, Op};
use modules_profile::{Local, LocalRow};

/// What a row of a system is before the first tick.
pub fn row_start(local: &Local, row: &LocalRow) -> i64
    ensures { result ≡ start_of_row local.now row.now }
{
    start_by(&row.op, &row.kind, local.control, row.out)
}

// What a row is before the first tick, by how the system around it is controlled.
fn start_by(op: &Op, kind: &Kind, around: Control, out: FixType) -> i64
    ensures { result ≡ run.start_by op.now kind.now around out }
{
    match op {
        Op::Delay(initial) => *initial,
        Op::Line { start, .. } => *start,
        Op::Copy => initial_output(kind, around, out),
        _ => 0,
    }
}

// The initial output of an Outport of a subsystem with a control; 0 of another row.
fn initial_output(kind: &Kind, around: Control, out: FixType) -> i64
    ensures { result ≡ run.initial_output kind.now around out }
{
    match (kind, around) {
        (_, Control::Plain) => 0,
        (Kind::Outport { initial, .. }, _) => quantize(initial, out),
        _ => 0,
    }
}
