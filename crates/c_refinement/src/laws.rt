ghost use Rattle.c_refinement.specs.Laws.{BodiesRefine, ProceduresRefine, RefinementsCompose, SameRunsRefine};

/// A program whose kept procedures refine another's, each at its place, refines it.
pub fn procedures_refine()
    ensures { ProceduresRefine }
{}

/// A program refines another in whose procedures it has bodies that refine theirs.
pub fn bodies_refine()
    ensures { BodiesRefine }
{}

/// What refines a program that refines another refines that too, each procedure at the place of its place.
pub fn refinements_compose()
    ensures { RefinementsCompose }
{}

/// A program that does the same as another refines it.
pub fn same_runs_refine()
    ensures { SameRunsRefine }
{}
