ghost use Rattle.tool_system_driver.specs.SystemShapes.{ShapesAreOne};

use modules_profile::profiles_are_one;

/// A system of a model has one shape, and what is driven as the system has that.
pub fn shapes_are_one()
    ensures { ShapesAreOne }
{
    profiles_are_one();
}
