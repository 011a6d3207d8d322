ghost use Rattle.tool_script_runner.specs.Right.{AnswersAreRight};
ghost use Rattle.tool_script_runner.specs.Drives.{ScriptsAreDriven};

use diagram_meaning::{one_run, output_rests};
use right_claim::lawful_scripts_run;

/// Whatever calls a driver of right code answers from the start on, it stands for the script of these calls, each reported what the
/// system gives over every trace that fits that script, and there is such a trace, with one run; each took what it takes in the
/// program.
pub fn answers_are_right()
    ensures { AnswersAreRight }
{
    one_run();
    output_rests();
    lawful_scripts_run();
}

/// A run of a script ends with its last line, or at the first that is no call or whose call is refused. The calls before it are
/// answered so, and their lines printed.
pub fn scripts_are_driven()
    ensures { ScriptsAreDriven }
{
    answers_are_right();
}
