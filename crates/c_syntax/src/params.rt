ghost use Rattle.std.specs.Prelude.{◌≡◌, IfOk};

use crate::code::CType;
use base_core::{Memory, Text};
use std::alloc::Global;

/// A copy of parameters.
///
/// Fails only when memory runs out.
pub fn copied_params(alloc: Global, params: &[(Text, CType)]) -> Result<Vec<(Text, CType)>, Memory>
    ensures { IfOk result (λ v. v.items ≡ params.now) }
{
    let mut list = Vec::new(alloc);
    for param in params {
        list.push((Text::copy_of(alloc, param.0.bytes())?, param.1))?;
    }
    Ok(list)
}
