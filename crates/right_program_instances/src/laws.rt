ghost use Rattle.right_linking.specs.Parts.{Parts};
ghost use Rattle.right_linking.specs.Places.{FormsAreOfSlots, ZerosHaveForms};
ghost use Rattle.right_linking.specs.Root.{InstancesHavePaths};
ghost use Rattle.right_program_instances.specs.Inside.{InstancesHavePathsInside};

use diagram_meaning::own_rows_stand_in;
use right_linking::{codes_have_views, fields_have_places, root_has_places, systems_have_places};

/// An instance all of whose numbers are 0 has the forms of its struct.
pub fn zeros_have_forms()
    ensures { (a : Parts) → ZerosHaveForms a }
{}

/// The fields of a system's struct hold what its slots do, where those of its children hold what
/// theirs do.
pub fn forms_are_of_slots()
    ensures { FormsAreOfSlots }
{
    systems_have_places();
}

/// In an instance of a system each system inside has an instance at its path, with its forms.
pub fn instances_have_paths_inside()
    ensures { (a : Parts) → InstancesHavePathsInside a }
{
    codes_have_views();
    fields_have_places();
    forms_are_of_slots();
    own_rows_stand_in();
}

/// In an instance of the root each system has an instance at its path, with its forms.
pub fn instances_have_paths()
    ensures { (a : Parts) → InstancesHavePaths a }
{
    codes_have_views();
    systems_have_places();
    root_has_places();
    instances_have_paths_inside();
}
