ghost use Rattle.tool_driver.specs.Laws.{CallsGoOn, NewDriversStand, UpdatesGoOn};

use right_claim::{lawful_scripts_run, scripts_grow};

/// A driver that begins over a machine as `root_start` left it stands for the empty script.
pub fn new_drivers_stand()
    ensures { NewDriversStand }
{}

/// A call of a function that isn't refused goes on each script that the driver stood for, reports what the system gives over
/// every trace that fits, and is never stuck.
pub fn calls_go_on()
    ensures { CallsGoOn }
{
    scripts_grow();
    lawful_scripts_run();
}

/// An update that isn't refused does so too.
pub fn updates_go_on()
    ensures { UpdatesGoOn }
{
    scripts_grow();
    lawful_scripts_run();
}
