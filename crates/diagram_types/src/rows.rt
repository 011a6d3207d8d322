ghost use Rattle.std.specs.Prelude.{◌≡◌, ◌<◌, ◌&&◌, ◌||◌, length, slice_get, slice_index_or, Some, None, if◌then◌else◌};
ghost use Rattle.base_fixed_point.specs.Types.{boolean};
ghost use Rattle.diagram_meaning.specs.Rows.{trigger_among};
ghost use Rattle.diagram_blocks.specs.Kinds.{control_of};
ghost use Rattle.diagram_blocks.specs.Kinds as kinds;
ghost use Rattle.diagram_meaning.specs.Rows as row;
ghost use Rattle.diagram_meaning.specs.Types.{is_boolean_by_kind};
ghost use Rattle.diagram_meaning.specs.Types as type;

use base_core::Control;
use base_fixed_point::FixType;
use diagram_blocks::Kind;
use diagram_meaning::Row;

/// The type of a truth value, and of a row without a value.
pub(crate) fn boolean() -> FixType
    ensures { result ≡ boolean }
{
    FixType {
        signed: false,
        bits: 1,
        frac: 0,
    }
}

/// The row with this number.
pub(crate) fn row_at(rows: &[Row], b: usize) -> &Row
    requires { b < length rows.now }
    ensures { result.now ≡ row.row_at rows.now b }
{
    &rows[b]
}

/// The row that the first input of a row reads, if it has one.
pub(crate) fn first_wire(row: &Row) -> Option<u32>
    ensures { result ≡ slice_get row.now.inputs 0 }
{
    row.inputs.wires().first().copied()
}

/// The type of a row, or boolean past the end.
pub(crate) fn type_at(types: &[FixType], b: usize) -> FixType
    ensures { result ≡ type.type_at types.now b }
{
    types.get(b).copied().unwrap_or(boolean())
}

/// What is met from a row, nothing past the end.
pub(crate) fn met_at(met: &[Option<FixType>], b: usize) -> Option<FixType>
    ensures { result ≡ slice_index_or met.now b None }
{
    met.get(b).copied().unwrap_or(None)
}

/// Whether a row is boolean by its kind alone: a ground, and a row without a value.
pub(crate) fn is_boolean_by_kind(kind: &Kind) -> bool
    ensures { result ≡ type.is_boolean_by_kind kind.now }
{
    matches!(
        kind,
        Kind::SubSystem(_) | Kind::Ground | Kind::Terminator | Kind::EnablePort | Kind::TriggerPort
    )
}

/// Whether a row is an Inport or an Outport.
pub(crate) fn is_port(kind: &Kind) -> bool
    ensures { result ≡ (kinds.is_inport kind.now || kinds.is_outport kind.now) }
{
    matches!(kind, Kind::Inport { .. } | Kind::Outport { .. })
}

/// The trigger among the control wires of a subsystem, if it has one.
fn trigger_among(control: &Control, wires: &[u32]) -> Option<u32>
    ensures { result ≡ trigger_among control.now wires.now }
{
    match control {
        Control::Plain | Control::Enabled { .. } => None,
        Control::Triggered(_) => wires.first().copied(),
        Control::Both { .. } => wires.get(1).copied(),
    }
}

/// The row that triggers a row, if that is a subsystem with a trigger.
pub(crate) fn trigger_wire(row: &Row) -> Option<u32>
    ensures { result ≡ trigger_among (control_of row.now.kind) row.now.inputs }
{
    match &row.kind {
        Kind::SubSystem(control) => trigger_among(control, row.inputs.wires()),
        _ => None,
    }
}
