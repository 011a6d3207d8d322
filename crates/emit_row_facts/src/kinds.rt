ghost use Rattle.std.specs.Prelude.{◌≡◌};
ghost use Rattle.diagram_blocks.specs.Meaning as meaning;
ghost use Rattle.diagram_meaning.specs.Rows as rows;
ghost use Rattle.diagram_meaning.specs.Run as run;
ghost use Rattle.emit_shape.specs.Delays as delays;
ghost use Rattle.emit_shape.specs.Names as names;

use base_core::Control;
use base_fixed_point::FixType;
use c_syntax::CType;
use diagram_blocks::Op;

/// Whether a row of an operation remembers one sample, in a field.
pub fn is_single(op: &Op) -> bool
    ensures { result ≡ delays.is_single op.now }
{
    matches!(op, Op::Delay(_))
}

/// Whether a row of an operation remembers several samples, in a ring.
pub fn is_line(op: &Op) -> bool
    ensures { result ≡ delays.is_line op.now }
{
    matches!(op, Op::Line { .. })
}

/// Whether a trigger controls a system, alone or beside an enable.
pub fn is_triggered(control: Control) -> bool
    ensures { result ≡ rows.is_triggered control }
{
    matches!(control, Control::Triggered(_) | Control::Both { .. })
}

/// The narrowest C type that has all numbers of a type.
pub fn container(number: FixType) -> CType
    ensures { result ≡ names.container number }
{
    if number.bits <= 8 {
        if number.signed { CType::I8 } else { CType::U8 }
    } else if number.bits <= 16 {
        if number.signed {
            CType::I16
        } else {
            CType::U16
        }
    } else if number.signed {
        CType::I32
    } else {
        CType::U32
    }
}
