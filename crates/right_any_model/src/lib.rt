//! Each resolved model without a loop has right codes of its systems, which can be put together.
#![tactic(auto)]

ghost use Rattle.right_any_model.specs.AnyModel.{ModelsHaveParts};

use right_any_system::each_system_is_emitted;

/// Where the code of each system is right by itself, each resolved model without a loop has codes that can be put
/// together.
pub fn models_have_parts()
    ensures { ModelsHaveParts }
{
    each_system_is_emitted();
}
