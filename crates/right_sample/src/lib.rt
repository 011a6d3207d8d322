//! Each resolved model without a loop has a program that is right code for it, and the sample model has one.
#![tactic(auto)]

ghost use Rattle.right_sample.specs.Samples.{EachModelHasCode, RichModelHasCode};

use emit_program::assembled_is_code;
use right_any_model::models_have_parts;
use right_sample_model::rich_model_is_there;
use right_system::emitted_code_is_ok;

/// Each resolved model without a loop has a program that is lawful and code for its diagram.
pub fn each_model_has_code()
    ensures { EachModelHasCode }
{
    models_have_parts();
    emitted_code_is_ok();
    assembled_is_code();
}

/// There is such a model, with an input, two rates, an enabled and a triggered subsystem, a Delay of several samples,
/// what is reset, and a row that two outputs share; and it has a program that is code for it.
pub fn a_rich_model_has_right_code()
    ensures { RichModelHasCode }
{
    each_model_has_code();
    rich_model_is_there();
}
