ghost use Rattle.std.specs.Prelude.{[]};
ghost use Rattle.right_claim.specs.Right.{IsCodeFor};
ghost use Rattle.right_claim.specs.WholeSamples.{later_five, whole_program};
ghost use Rattle.right_claim.specs.DriveLaws.{LawfulScriptsFit, LawfulScriptsRun, ScriptsGrow};
ghost use Rattle.right_claim.specs.LineLaws.{RenewalsMeanNoLines, RowsMeanNoLines, ShapeMeansNoLines, TextOfCodeIsRight};

use base_core::needs_are_least;
use c_semantics::lines_mean_nothing;
use diagram_meaning::one_run;
use modules_profile::profiles_are_one;

/// What a program does over traces and scripts is the same for each program that differs from it in lines alone.
pub fn rows_mean_no_lines()
    ensures { RowsMeanNoLines }
{
    lines_mean_nothing();
}

/// So is what its starts and resets make of an instance.
pub fn renewals_mean_no_lines()
    ensures { RenewalsMeanNoLines }
{
    lines_mean_nothing();
}

/// So are its interfaces and its shape.
pub fn shape_means_no_lines()
    ensures { ShapeMeansNoLines }
{}

/// So the text of code for a table's diagram is right for the table.
pub fn text_of_code_is_right()
    ensures { TextOfCodeIsRight }
{
    lines_mean_nothing();
}

/// A script with one more call is lawful where it was and the call may follow.
pub fn scripts_grow()
    ensures { ScriptsGrow }
{}

/// Some trace fits each lawful script.
pub fn lawful_scripts_fit()
    ensures { LawfulScriptsFit }
{}

/// Where the diagram has no loop, there is one run over such a trace.
pub fn lawful_scripts_run()
    ensures { LawfulScriptsRun }
{
    lawful_scripts_fit();
    one_run();
}

/// Some code is right: that of a model with a subsystem that remembers a number.
pub fn some_code_is_right()
    ensures { IsCodeFor whole_program later_five [] 1 }
{
    one_run();
    needs_are_least();
    profiles_are_one();
}
