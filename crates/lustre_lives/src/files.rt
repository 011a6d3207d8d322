ghost use Rattle.lustre_right.specs.RightLaws.{FilesAreRight};

use diagram_meaning::one_run;
use lustre_functions::nodes_are_functions;
use lustre_instances::{systems_hold, whole_by_systems};
use lustre_lawful::model_files_are_lawful;
use lustre_settling::{settled_is_least, stuck_exactly};
use lustre_ticks::solutions_have_the_run;

/// The file of a model without a loop, and without a delay that is too long, is right for it: over each trace it is never
/// stuck, gives the outputs of the one run, and has for each row the value that the run has.
pub fn files_are_right()
    ensures { FilesAreRight }
{
    one_run();
    settled_is_least();
    stuck_exactly();
    nodes_are_functions();
    model_files_are_lawful();
    systems_hold();
    whole_by_systems();
    solutions_have_the_run();
}
