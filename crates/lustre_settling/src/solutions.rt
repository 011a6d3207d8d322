ghost use Rattle.lustre_settling.specs.Solutions.{SettledIsLeast, SettledIsOnly, SolutionsAreKept};

/// A pass changes nothing exactly where each equation gives its names what it evaluates to.
#[tactic(auto, using(crate::proofs::lemmas::Solutions::solutions_are_kept))]
pub fn solutions_are_kept()
    ensures { SolutionsAreKept }
{}

/// What a tick leaves solves the equations, and each solution has all of its values.
#[tactic(auto, using(crate::proofs::lemmas::Solutions::settled_is_least))]
pub fn settled_is_least()
    ensures { SettledIsLeast }
{}

/// A solution without a value that the tick doesn't leave is what the tick leaves.
#[tactic(auto, using(crate::proofs::lemmas::Solutions::settled_is_only))]
pub fn settled_is_only()
    ensures { SettledIsOnly }
{}
