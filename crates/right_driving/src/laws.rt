ghost use Rattle.right_driving.specs.Found.{InstancesAreFound};
ghost use Rattle.right_driving.specs.DrivenSystems.{RightCodeIsDrivable};
ghost use Rattle.right_driving.specs.DrivenMachines.{MachinesCanBeDriven};

use c_reading_laws::readings_agree;
use diagram_meaning::{resolved_cycles_are_short, resolved_cycles_have_ticks};
use modules_profile::{header_is_of_own_rows, profiles_are_one};

/// The instance of each system of right code is found from the root's, field by field.
pub fn instances_are_found()
    ensures { InstancesAreFound }
{}

/// The instance of a system of right code has all that a driver of the system needs.
pub fn right_code_is_drivable()
    ensures { RightCodeIsDrivable }
{
    profiles_are_one();
    header_is_of_own_rows();
    resolved_cycles_are_short();
    resolved_cycles_have_ticks();
}

/// So a driver can be made of a machine that was made of right bytes, and of an instance that was found in it.
pub fn machines_can_be_driven()
    ensures { MachinesCanBeDriven }
{
    readings_agree();
    instances_are_found();
    right_code_is_drivable();
}
