ghost use Rattle.mdl_library.specs.Laws.{ExpansionsAreOne, NoReferenceIsLeft, SizesAreRight};

/// A model and a library's file have one first refusal, or one text written out.
pub fn expansions_are_one()
    ensures { ExpansionsAreOne }
{}

/// The size of a model with its references written out, which is found without writing them out, is that of the tree that is
/// written.
pub fn sizes_are_right()
    ensures { SizesAreRight }
{}

/// No reference is left in a model that was written out.
pub fn no_reference_is_left()
    ensures { NoReferenceIsLeft }
{}
