ghost use Rattle.right_program_rules.specs.Keeping.{ChainsAreKept, LimitsAreKept, NamesAreKept, OfferedStandByName, ProceduresAreKept, ProgramsAreLawful, RootIsKept, StructsAreKept};

use diagram_meaning::resolved_cycles_are_short;
use modules_profile::locals_are_lawful;
use right_linking::{codes_have_views, systems_have_places};

/// What the children of a system offer comes, in the order in which the system counts it, where the names say.
pub fn offered_stand_by_name()
    ensures { OfferedStandByName }
{
    systems_have_places();
    locals_are_lawful();
}

/// Structs have fields of different names, and of kinds that are there, and differ by name.
pub fn structs_are_kept()
    ensures { StructsAreKept }
{
    codes_have_views();
}

/// The names of all functions and procedures differ.
pub fn names_are_kept()
    ensures { NamesAreKept }
{
    codes_have_views();
}

/// Each procedure has parameters of different names, and what it reads, stores and calls is there.
pub fn procedures_are_kept()
    ensures { ProceduresAreKept }
{
    codes_have_views();
    systems_have_places();
    offered_stand_by_name();
    resolved_cycles_are_short();
}

/// No chain of calls is too long.
pub fn chains_are_kept()
    ensures { ChainsAreKept }
{
    codes_have_views();
    systems_have_places();
    offered_stand_by_name();
}

/// Depths and numbers are within the limits.
pub fn limits_are_kept()
    ensures { LimitsAreKept }
{
    codes_have_views();
}

/// The root's struct and procedures are there.
pub fn root_is_kept()
    ensures { RootIsKept }
{
    codes_have_views();
}

/// The program keeps the rules and limits of C.
pub fn assembled_is_lawful()
    ensures { ProgramsAreLawful }
{
    structs_are_kept();
    names_are_kept();
    procedures_are_kept();
    root_is_kept();
    chains_are_kept();
    limits_are_kept();
}
