//! A sample model with two rates, an enabled and a triggered subsystem, a Delay of several samples, resets, and a row
//! that two outputs share. It is resolved, and has no loop.
#![tactic(auto)]

ghost use Rattle.right_sample_model.specs.RichModel.{RichModel};

use diagram_meaning::{input_times_are_there, tables_have_times, time_is_one};

/// The model is that of a file, has types, operations and sample times, and no loop.
pub fn rich_model_is_there()
    ensures { RichModel }
{
    tables_have_times();
    input_times_are_there();
    time_is_one();
}
