ghost use Rattle.c_tokens.specs.Lists.{ListsContinue};

/// Each list of a C text continues after an element: fewer tokens are left there, and the further elements are those that a
/// list has which begins there. So the reading of a list ends.
#[tactic(auto, using(crate::proofs::Continuing::lists_continue))]
pub fn lists_continue()
    ensures { ListsContinue }
{}
