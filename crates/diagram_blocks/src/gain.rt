ghost use Rattle.std.specs.Prelude.{◌≡◌, ◌≤◌};
ghost use Rattle.diagram_blocks.specs.Width as width;

use crate::kind::GainText;
use base_fixed_point::{gain_constant, quantize};

/// A gain's constant: a stored integer and its fraction bits. A gain that fits at no number of fraction bits gives 0.
pub(crate) fn gain_of(gain: &GainText) -> (i64, u8)
    ensures value { result ≡ width.gain_of gain.now }
    ensures bound { result.1 ≤ 31 }
{
    match gain {
        GainText::Own(number) => gain_constant(number).unwrap_or((0, 0)),
        GainText::Typed(number, to) => (quantize(number, *to), to.frac),
    }
}
