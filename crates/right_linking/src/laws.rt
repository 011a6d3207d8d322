ghost use Rattle.right_linking.specs.Offers.{OffersAreOfHeaders, ProceduresFollow, SystemsOfferTheirs};
ghost use Rattle.right_linking.specs.Parts.{CodesHaveViews};
ghost use Rattle.right_linking.specs.Places.{FieldsAreFound, RootHasPlaces, SystemsHavePlaces};
ghost use Rattle.right_linking.specs.Whole.{CodeFollows, RunsFollow, TracesFollow};

use c_semantics::procedures_stand_in_order;
use diagram_meaning::one_run;
use emit_shape::moved_code_agrees;
use modules_profile::{header_is_of_own_rows, locals_are_lawful, profiles_are_one};

/// Each system of a model is known with its code, and so is each child.
pub fn codes_have_views()
    ensures { CodesHaveViews }
{
    profiles_are_one();
    header_is_of_own_rows();
}

/// A system's struct and procedures are in the program where its code is among the codes.
pub fn systems_have_places()
    ensures { SystemsHavePlaces }
{}

/// A field is found by the name of its slot.
pub fn fields_have_places()
    ensures { FieldsAreFound }
{
    systems_have_places();
}

/// The root's struct and procedures come last.
pub fn root_has_places()
    ensures { RootHasPlaces }
{
    codes_have_views();
}

/// A system's procedures take what its header says.
pub fn offers_are_of_headers()
    ensures { OffersAreOfHeaders }
{
    procedures_stand_in_order();
    systems_have_places();
}

/// A system's procedures in the program are those of its code among the procedures of its children,
/// where what they call and read is found alike in both.
pub fn procedures_follow()
    ensures { ProceduresFollow }
{
    moved_code_agrees();
    procedures_stand_in_order();
    systems_have_places();
    fields_have_places();
}

/// What a system offers in the program is what its code does among the procedures of its children.
pub fn systems_offer_theirs()
    ensures { SystemsOfferTheirs }
{
    locals_are_lawful();
    systems_have_places();
    fields_have_places();
    procedures_follow();
}

/// Fields of the root whose instance of `top` is as its start left it answer each trace, where the
/// root takes single ticks as it should, and each instance lives through runs.
pub fn traces_follow()
    ensures { TracesFollow }
{}

/// A program that is restarted from any fields gives over each trace the outputs of the one run,
/// within the bound on steps, by the calls of each tick, and each system answers its calls in any
/// lawful order.
pub fn runs_follow()
    ensures { RunsFollow }
{
    one_run();
}

/// A lawful program that has each part of right code is lawful, and code for the diagram.
pub fn code_follows()
    ensures { CodeFollows }
{}
