ghost use Rattle.right_program_interfaces.specs.Faces.{AssembledAreLeast};
ghost use Rattle.right_program_interfaces.specs.Shapes.{AssembledHaveShape, FunctionsAreKnown, RootHasShape, StructsAreNamed, SystemsHaveShape};

use modules_profile::{header_is_of_own_rows, locals_are_lawful, profiles_are_least};
use right_linking::{codes_have_views, root_has_places, systems_have_places};
use right_relation::cycle_is_of_locals;

/// Each system of an assembled program has a struct and procedures of its own.
pub fn systems_have_shape()
    ensures { SystemsHaveShape }
{
    codes_have_views();
    systems_have_places();
    locals_are_lawful();
}

/// The pure functions of an assembled program are among the eight of the prelude.
pub fn functions_are_known()
    ensures { FunctionsAreKnown }
{}

/// The structs of an assembled program are those of its systems and the root's.
pub fn structs_are_named()
    ensures { StructsAreNamed }
{
    codes_have_views();
}

/// The root of an assembled program has a struct and two procedures of its own.
pub fn root_has_shape()
    ensures { RootHasShape }
{
    codes_have_views();
    systems_have_places();
    root_has_places();
    header_is_of_own_rows();
    cycle_is_of_locals();
}

/// An assembled program has the shape of a program of its systems.
pub fn assembled_has_shape()
    ensures { AssembledHaveShape }
{
    functions_are_known();
    systems_have_shape();
    structs_are_named();
    root_has_shape();
}

/// Each system's functions take exactly what its outputs need, and are as few as can be.
pub fn assembled_is_least()
    ensures { AssembledAreLeast }
{
    codes_have_views();
    locals_are_lawful();
    systems_have_places();
    header_is_of_own_rows();
    profiles_are_least();
}
